// Tokens that stand for themselves: they go to the current stream, or an open call collects them; and calls are opened.
ghost use Rattle.std.specs.Prelude.{◌≡◌, suc, ◌+◌, ◌<◌, ◌≤◌, List, [], ◌∷◌, length, take, drop};
ghost use Rattle.rules.specs.State.{State, Call, next, taking, emitting, with_calls};
ghost use Rattle.rules.specs.Run.{Setting};
ghost use Rattle.rules.specs.Source.{ahead};
ghost use Rattle.expander.specs.Machine.{Memory, Represents, Refines, Valid, Reach, bytes_ahead, text_at, pending_at, calls_at, sinks_at};
ghost use Rattle.hashing.specs.Hashing.{bucket_of};
ghost use Rattle.rules.specs.Step.{delivered, opened, collecting, comma_met};

use crate::limits::{MOST_ARGUMENTS, MOST_CALLS};
use crate::machine::{Machine, Stepped};
use crate::sinks;
use rules::Answer;

// n bytes ahead from `start` on go to the current stream; `width` bytes are taken.
fn emit_token(
    text: &[u8],
    pending: &[u8],
    streams: &mut [u8],
    owners: &mut [u8],
    output: &mut [u8],
    m: Machine,
    start: usize,
    n: usize,
    width: usize,
) -> Stepped
    requires valid { Valid (λ b. text_at text.now (pending_at pending.now (sinks_at streams.old owners.old output.old b))) m }
    requires reach { Reach text.now pending.now m.source start n width }
    ensures { (a : Setting) (s : State) (b : Memory) → Represents a (text_at text.now (pending_at pending.now (sinks_at streams.old owners.old output.old b))) m s → Refines a (text_at text.now (pending_at pending.now (sinks_at streams.old owners.old output.old b))) (next (emitting (take n (drop start (ahead s.source))) (taking width s))) (text_at text.now (pending_at pending.now (sinks_at streams.new owners.new output.new b))) result }
{
    let p = m.source;
    if let Some(buffer) = sinks::full(m.sinks, n, streams.len(), output.len()) {
        return m.refused(Answer::Room(buffer));
    }
    let k = m
        .sinks
        .emit_ahead(p.ahead(text, pending), start, n, streams, owners, output);
    let to = p.advanced(pending, width);
    m.with_source(to).with_sinks(k).on()
}

// n bytes ahead from `start` on are collected by the innermost call; `width` bytes are taken.
fn collect_token(
    text: &[u8],
    pending: &[u8],
    calls: &mut [u8],
    ends: &mut [u32],
    stack: &mut [u32],
    m: Machine,
    start: usize,
    n: usize,
    width: usize,
) -> Stepped
    requires valid { Valid (λ b. text_at text.now (pending_at pending.now (calls_at calls.old ends.old stack.old b))) m }
    requires reach { Reach text.now pending.now m.source start n width × (0 < m.calls.opens) }
    ensures { (a : Setting) (s : State) (b : Memory) (c : Call) (cs : List Call) → Represents a (text_at text.now (pending_at pending.now (calls_at calls.old ends.old stack.old b))) m s → s.calls ≡ c ∷ cs → Refines a (text_at text.now (pending_at pending.now (calls_at calls.old ends.old stack.old b))) (next (with_calls (collecting (take n (drop start (ahead s.source))) c.depth c ∷ cs) (taking width s))) (text_at text.now (pending_at pending.now (calls_at calls.new ends.new stack.new b))) result }
{
    let p = m.source;
    if calls.len() - m.calls.strings.used < n {
        return m.refused(Answer::Room(2));
    }
    let k = m
        .calls
        .collect_ahead(p.ahead(text, pending), start, n, calls, ends, stack);
    let to = p.advanced(pending, width);
    m.with_source(to).with_calls(k).on()
}

// A token that stands for itself: n bytes from `start` on, of the `width` that are taken.
pub(crate) fn deliver(
    text: &[u8],
    pending: &[u8],
    calls: &mut [u8],
    ends: &mut [u32],
    stack: &mut [u32],
    streams: &mut [u8],
    owners: &mut [u8],
    output: &mut [u8],
    m: Machine,
    start: usize,
    n: usize,
    width: usize,
) -> Stepped
    requires valid { Valid (λ b. text_at text.now (pending_at pending.now (calls_at calls.old ends.old stack.old (sinks_at streams.old owners.old output.old b)))) m }
    requires reach { Reach text.now pending.now m.source start n width }
    ensures { (a : Setting) (s : State) (b : Memory) → Represents a (text_at text.now (pending_at pending.now (calls_at calls.old ends.old stack.old (sinks_at streams.old owners.old output.old b)))) m s → Refines a (text_at text.now (pending_at pending.now (calls_at calls.old ends.old stack.old (sinks_at streams.old owners.old output.old b)))) (next (delivered (take n (drop start (ahead s.source))) s.calls (taking width s))) (text_at text.now (pending_at pending.now (calls_at calls.new ends.new stack.new (sinks_at streams.new owners.new output.new b)))) result }
{
    if m.calls.opens == 0 {
        return emit_token(text, pending, streams, owners, output, m, start, n, width);
    }
    collect_token(text, pending, calls, ends, stack, m, start, n, width)
}

// One byte, which was taken, goes to the current stream.
pub(crate) fn emit_byte(
    streams: &mut [u8],
    owners: &mut [u8],
    output: &mut [u8],
    m: Machine,
    x: u8,
) -> Stepped
    requires { Valid (λ b. sinks_at streams.old owners.old output.old b) m }
    ensures { (a : Setting) (s : State) (b : Memory) → Represents a (sinks_at streams.old owners.old output.old b) m s → Refines a (sinks_at streams.old owners.old output.old b) (next (emitting (x ∷ []) s)) (sinks_at streams.new owners.new output.new b) result }
{
    if let Some(buffer) = sinks::full(m.sinks, 1, streams.len(), output.len()) {
        return m.refused(Answer::Room(buffer));
    }
    let k = m.sinks.emit_byte(streams, owners, output, x);
    m.with_sinks(k).on()
}

// One byte, which was taken, is collected by the innermost call, whose depth of parentheses is then `depth`.
pub(crate) fn collect_byte(
    calls: &mut [u8],
    ends: &mut [u32],
    stack: &mut [u32],
    m: Machine,
    x: u8,
    depth: u32,
) -> Stepped
    requires valid { Valid (λ b. calls_at calls.old ends.old stack.old b) m }
    requires opens_nonzero { 0 < m.calls.opens }
    ensures { (a : Setting) (s : State) (b : Memory) (c : Call) (cs : List Call) → Represents a (calls_at calls.old ends.old stack.old b) m s → s.calls ≡ c ∷ cs → depth ≤ length c.current + 1 → Refines a (calls_at calls.old ends.old stack.old b) (next (with_calls (collecting (x ∷ []) depth c ∷ cs) s)) (calls_at calls.new ends.new stack.new b) result }
{
    if calls.len() <= m.calls.strings.used {
        return m.refused(Answer::Room(2));
    }
    let k = m.calls.collect_byte(x, depth, calls, ends, stack);
    m.with_calls(k).on()
}

// A call is opened whose name is the first n bytes ahead, of this bucket; they and the parenthesis are taken.
pub(crate) fn open_call(
    text: &[u8],
    pending: &[u8],
    calls: &mut [u8],
    ends: &mut [u32],
    stack: &mut [u32],
    m: Machine,
    n: usize,
    bucket: usize,
) -> Stepped
    requires valid { Valid (λ b. text_at text.now (pending_at pending.now (calls_at calls.old ends.old stack.old b))) m }
    requires reach { Reach text.now pending.now m.source 0 n (suc n) }
    requires bucket_value { bucket ≡ bucket_of (take n (bytes_ahead text.now pending.now m.source)) }
    ensures { (a : Setting) (s : State) (b : Memory) → Represents a (text_at text.now (pending_at pending.now (calls_at calls.old ends.old stack.old b))) m s → Refines a (text_at text.now (pending_at pending.now (calls_at calls.old ends.old stack.old b))) (opened (take n (ahead s.source)) (taking (suc n) s)) (text_at text.now (pending_at pending.now (calls_at calls.new ends.new stack.new b))) result }
{
    let p = m.source;
    let opens = m.calls.opens;
    if MOST_CALLS <= opens {
        return m.refused(Answer::Deep);
    }
    if MOST_ARGUMENTS <= m.calls.strings.count - opens {
        return m.refused(Answer::Deep);
    }
    if calls.len() - m.calls.strings.used < n {
        return m.refused(Answer::Room(2));
    }
    let k = m
        .calls
        .open_ahead(p.ahead(text, pending), n, calls, ends, stack, bucket);
    let to = p.advanced(pending, n + 1);
    m.with_source(to).with_calls(k).on()
}

// A comma at depth zero: the next argument begins.
pub(crate) fn next_argument(
    calls: &[u8],
    ends: &mut [u32],
    stack: &mut [u32],
    m: Machine,
) -> Stepped
    requires valid { Valid (λ b. calls_at calls.now ends.old stack.old b) m }
    requires opens_nonzero { 0 < m.calls.opens }
    ensures { (a : Setting) (s : State) (b : Memory) (c : Call) (cs : List Call) → Represents a (calls_at calls.now ends.old stack.old b) m s → s.calls ≡ c ∷ cs → Refines a (calls_at calls.now ends.old stack.old b) (comma_met c cs s) (calls_at calls.now ends.new stack.new b) result }
{
    if MOST_ARGUMENTS <= m.calls.strings.count - m.calls.opens {
        return m.refused(Answer::Deep);
    }
    let k = m.calls.separated(ends, stack);
    m.with_calls(k).on()
}
