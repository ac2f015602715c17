// The open calls: their names and arguments are packed strings of buffer 2, outermost call first; the last string is what is being
// collected. `stack` has four words for each call: the number of its first string, its depth of parentheses, whether it collected, and the
// bucket of its name.
// What a call collects is written behind the strings, and then belongs to the innermost call.
ghost use Rattle.std.specs.Prelude.{◌≡◌, ℕ, ◌+◌, ◌-◌, ◌*◌, ◌<◌, ◌≤◌, List, [], ◌∷◌, ◌++◌, length, take, drop, slice_index};
ghost use Rattle.rules.specs.Bytes.{Bytes};
ghost use Rattle.rules.specs.State.{Call};
ghost use Rattle.rules.specs.Step.{open_call, collecting, next_argument};
ghost use Rattle.hashing.specs.Hashing.{bucket_count, bucket_of};
ghost use Rattle.expander.specs.Calls.{CallsIn, SomeCalls, open_strings, bit, CallRoom};
ghost use Rattle.expander.specs.Filled.{Filled};
ghost use Rattle.expander.specs.Source.{bytes_of};
ghost use Rattle.expander.specs.Limits.{most_lent, most_calls, most_arguments, stack_length};

use crate::packed;
use crate::packed::Packed;
use crate::source::Ahead;

#[derive(Clone, Copy)]
pub(crate) struct Calls {
    pub(crate) strings: Packed,
    pub(crate) opens: usize,
}

impl Calls {
    // A call is opened whose name, n bytes of this bucket, was written behind the strings.
    pub(crate) fn opened(
        self,
        ends: &mut [u32],
        stack: &mut [u32],
        n: usize,
        bucket: usize,
    ) -> Calls
        requires { SomeCalls ends.old stack.old self × (self.opens < most_calls) × (self.strings.count < self.opens + most_arguments) × (n ≤ most_lent) × (bucket < bucket_count) }
        ensures { (bytes after name : Bytes) (cs : List Call) → CallsIn bytes ends.old stack.old self cs → length name ≡ n → bucket ≡ bucket_of name → Filled bytes self.strings.used name after → CallsIn after ends.new stack.new result (open_call name ∷ cs) }
    {
        let count = self.strings.count;
        let opens = self.opens;
        let used = self.strings.used + n;
        ends[count] = used as u32;
        ends[count + 1] = used as u32;
        let top = 4 * opens;
        stack[top] = count as u32;
        stack[top + 1] = 0;
        stack[top + 2] = 0;
        stack[top + 3] = bucket as u32;
        let strings = Packed {
            count: count + 2,
            used,
        };
        Calls {
            strings,
            opens: opens + 1,
        }
    }

    // n bytes that were written behind the strings belong to the argument being collected, whose depth is now `depth`.
    pub(crate) fn collected(
        self,
        ends: &mut [u32],
        stack: &mut [u32],
        n: usize,
        depth: u32,
    ) -> Calls
        requires { SomeCalls ends.old stack.old self × (0 < self.opens) × (n ≤ most_lent) }
        ensures { (bytes after w : Bytes) (c : Call) (cs : List Call) → CallsIn bytes ends.old stack.old self (c ∷ cs) → length w ≡ n → Filled bytes self.strings.used w after → depth ≤ length c.current + n → CallsIn after ends.new stack.new result (collecting w depth c ∷ cs) }
    {
        let count = self.strings.count;
        let opens = self.opens;
        let used = self.strings.used + n;
        ends[count - 1] = used as u32;
        let top = 4 * (opens - 1);
        stack[top + 1] = depth;
        stack[top + 2] = 1;
        let strings = Packed { count, used };
        Calls { strings, opens }
    }

    // The next argument begins.
    pub(crate) fn separated(self, ends: &mut [u32], stack: &mut [u32]) -> Calls
        requires { SomeCalls ends.old stack.old self × (0 < self.opens) × (self.strings.count < self.opens + most_arguments) }
        ensures { (bytes : Bytes) (c : Call) (cs : List Call) → CallsIn bytes ends.old stack.old self (c ∷ cs) → CallsIn bytes ends.new stack.new result (next_argument c ∷ cs) }
    {
        let count = self.strings.count;
        let used = self.strings.used;
        let opens = self.opens;
        ends[count] = used as u32;
        let top = 4 * (opens - 1);
        stack[top + 1] = 0;
        stack[top + 2] = 0;
        let strings = Packed {
            count: count + 1,
            used,
        };
        Calls { strings, opens }
    }

    // The innermost call is closed: its strings, from `first` on, go.
    pub(crate) fn closed(self, ends: &[u32], first: usize) -> Calls
        requires { (0 < self.opens) × (first ≤ length ends.now) }
        ensures { (bytes : Bytes) (stack : List ℕ) (c : Call) (cs : List Call) → CallsIn bytes ends.now stack self (c ∷ cs) → first ≡ length (open_strings cs) → CallsIn bytes ends.now stack result cs }
    {
        let used = packed::start(ends, first);
        let strings = Packed { count: first, used };
        Calls {
            strings,
            opens: self.opens - 1,
        }
    }

    // A call is opened whose name is the first n bytes ahead, of this bucket.
    pub(crate) fn open_ahead(
        self,
        ahead: Ahead<'_>,
        n: usize,
        bytes: &mut [u8],
        ends: &mut [u32],
        stack: &mut [u32],
        bucket: usize,
    ) -> Calls
        requires call_room { CallRoom bytes.old ends.old stack.old self n × (n ≤ length (bytes_of ahead)) }
        requires opens_lt_most_calls { (self.opens < most_calls) × (self.strings.count < self.opens + most_arguments) }
        requires bucket_value { bucket ≡ bucket_of (take n (bytes_of ahead)) }
        ensures { (cs : List Call) → CallsIn bytes.old ends.old stack.old self cs → CallsIn bytes.new ends.new stack.new result (open_call (take n (bytes_of ahead.entry)) ∷ cs) }
    {
        let at = self.strings.used;
        ahead.fill(0, n, bytes, at);
        self.opened(ends, stack, n, bucket)
    }

    // n bytes ahead, from `start` on, are collected.
    pub(crate) fn collect_ahead(
        self,
        ahead: Ahead<'_>,
        start: usize,
        n: usize,
        bytes: &mut [u8],
        ends: &mut [u32],
        stack: &mut [u32],
    ) -> Calls
        requires { CallRoom bytes.old ends.old stack.old self n × (start + n ≤ length (bytes_of ahead)) × (0 < self.opens) }
        ensures { (c : Call) (cs : List Call) → CallsIn bytes.old ends.old stack.old self (c ∷ cs) → CallsIn bytes.new ends.new stack.new result (collecting (take n (drop start (bytes_of ahead.entry))) c.depth c ∷ cs) }
    {
        let at = self.strings.used;
        let depth = depth(stack, self);
        ahead.fill(start, n, bytes, at);
        self.collected(ends, stack, n, depth)
    }

    // One byte is collected; the depth of parentheses is then `depth`.
    pub(crate) fn collect_byte(
        self,
        b: u8,
        depth: u32,
        bytes: &mut [u8],
        ends: &mut [u32],
        stack: &mut [u32],
    ) -> Calls
        requires { CallRoom bytes.old ends.old stack.old self 1 × (0 < self.opens) }
        ensures { (c : Call) (cs : List Call) → CallsIn bytes.old ends.old stack.old self (c ∷ cs) → depth ≤ length c.current + 1 → CallsIn bytes.new ends.new stack.new result (collecting (b ∷ []) depth c ∷ cs) }
    {
        let at = self.strings.used;
        bytes[at] = b;
        self.collected(ends, stack, 1, depth)
    }
}

// Word k of the innermost call.
fn word(stack: &[u32], x: Calls, k: usize) -> u32
    requires { (0 < x.opens) × (x.opens ≤ most_calls) × (length stack.now ≡ stack_length) × (k < 4) }
    ensures { result ≡ slice_index stack.now (4 * (x.opens - 1) + k) }
{
    stack[4 * (x.opens - 1) + k]
}

// The number of the innermost call's first string, its name.
pub(crate) fn first_string(stack: &[u32], x: Calls) -> usize
    requires { (0 < x.opens) × (x.opens ≤ most_calls) × (length stack.now ≡ stack_length) }
    ensures { (bytes : Bytes) (ends : List ℕ) (c : Call) (cs : List Call) → CallsIn bytes ends stack.now x (c ∷ cs) → result ≡ length (open_strings cs) }
{
    word(stack, x, 0) as usize
}

// How many parentheses are open in the argument that is being collected.
pub(crate) fn depth(stack: &[u32], x: Calls) -> u32
    requires { (0 < x.opens) × (x.opens ≤ most_calls) × (length stack.now ≡ stack_length) }
    ensures { (bytes : Bytes) (ends : List ℕ) (c : Call) (cs : List Call) → CallsIn bytes ends stack.now x (c ∷ cs) → result ≡ c.depth }
{
    word(stack, x, 1)
}

// Whether the argument collected a token.
pub(crate) fn has_collected(stack: &[u32], x: Calls) -> bool
    requires { (0 < x.opens) × (x.opens ≤ most_calls) × (length stack.now ≡ stack_length) }
    ensures { (bytes : Bytes) (ends : List ℕ) (c : Call) (cs : List Call) → CallsIn bytes ends stack.now x (c ∷ cs) → result ≡ c.collected }
{
    word(stack, x, 2) != 0
}

// The bucket of the innermost call's name.
pub(crate) fn bucket(stack: &[u32], x: Calls) -> usize
    requires { (0 < x.opens) × (x.opens ≤ most_calls) × (length stack.now ≡ stack_length) }
    ensures { (bytes : Bytes) (ends : List ℕ) (c : Call) (cs : List Call) → CallsIn bytes ends stack.now x (c ∷ cs) → result ≡ bucket_of c.name }
{
    word(stack, x, 3) as usize
}
