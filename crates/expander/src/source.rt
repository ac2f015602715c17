// The text ahead. Pending text lies at the end of its buffer, from `from` on, and `taken` bytes of the input are taken; what is left of
// both is read as one text.
ghost use Rattle.std.specs.Prelude.{◌≡◌, ◌+◌, ◌-◌, ◌*◌, ◌≤◌, ◌++◌, length, take, drop, slice_index};
ghost use Rattle.rules.specs.Bytes.{Bytes};
ghost use Rattle.rules.specs.Source.{Source, ahead, advance};
ghost use Rattle.expander.specs.Source.{SourceIn, bytes_ahead, bytes_of};
ghost use Rattle.expander.specs.Limits.{most_lent};
ghost use Rattle.expander.specs.Ahead.{plain_length, AheadLength, NextEither, LineEnd};
ghost use Rattle.expander.specs.Filled.{Filled};

use crate::buffers::copy;

// Where the text ahead stands.
#[derive(Clone, Copy)]
pub(crate) struct Position {
    pub(crate) from: usize,
    pub(crate) taken: usize,
}

impl Position {
    // Text was pushed back: the pending text begins at `from`.
    pub(crate) fn pushed(self, from: usize) -> Position
        ensures { result ≡ record { from = from; taken = self.taken } }
    {
        Position { from, ..self }
    }

    // The text ahead, in the two buffers.
    pub(crate) fn ahead<'a>(self, text: &'a [u8], pending: &'a [u8]) -> Ahead<'a>
        requires { (self.from ≤ length pending.now) × (self.taken ≤ length text.now) }
        ensures { bytes_of result ≡ bytes_ahead text.now pending.now self }
    {
        let from = self.from;
        let taken = self.taken;
        Ahead {
            front: &pending[from..],
            rest: &text[taken..],
        }
    }

    // n bytes of the text ahead are taken.
    pub(crate) fn advanced(self, pending: &[u8], n: usize) -> Position
        requires { (self.from ≤ length pending.now) × (length pending.now ≤ most_lent) × (self.taken ≤ most_lent) × (n ≤ 2 * most_lent) }
        ensures { (text : Bytes) (x : Source) → SourceIn text pending.now self x → n ≤ length (ahead x) → SourceIn text pending.now result (advance n x) }
    {
        let from = self.from;
        let taken = self.taken;
        let have = pending.len() - from;
        if n <= have {
            return Position {
                from: from + n,
                ..self
            };
        }
        let more = n - have;
        Position {
            from: pending.len(),
            taken: taken + more,
        }
    }
}

// What is ahead: what is left of the pending text, and of the input behind it. A place counts from the front of `front` and goes on into `rest`.
#[derive(Clone, Copy)]
pub(crate) struct Ahead<'a> {
    pub(crate) front: &'a [u8],
    pub(crate) rest: &'a [u8],
}

// How many bytes at the front are neither a nor b.
fn plain_length(s: &[u8], a: u8, b: u8) -> usize
    ensures { result ≡ plain_length a b s.now }
{
    // The library's `position` takes one to two of a hundred instructions more on most benchmarks.
    for i in 0..s.len() {
        let x = s[i];
        if x == a {
            return i;
        }
        if x == b {
            return i;
        }
    }
    s.len()
}

impl<'a> Ahead<'a> {
    // How many bytes are ahead.
    pub(crate) fn len(self) -> usize
        ensures { AheadLength (bytes_of self.entry) result }
    {
        self.front.len() + self.rest.len()
    }

    // The byte at the place k; 0 behind the end.
    pub(crate) fn byte(self, k: usize) -> u8
        ensures { result ≡ slice_index (bytes_of self.entry) k }
    {
        let front = self.front;
        let rest = self.rest;
        if k < front.len() {
            return front[k];
        }
        let j = k - front.len();
        if j < rest.len() {
            return rest[j];
        }
        0
    }

    // Fills `dst` with the bytes from the place `start` on.
    pub(crate) fn copy_to(self, start: usize, dst: &mut [u8])
        requires { start + length dst.old ≤ length (bytes_of self) }
        ensures { dst.new ≡ take (length dst.old) (drop start (bytes_of self.entry)) }
    {
        let front = self.front;
        let rest = self.rest;
        let size = dst.len();
        if front.len() <= start {
            let from = start - front.len();
            let to = from + size;
            copy(&rest[from..to], dst);
            return;
        }
        let left = front.len() - start;
        if size <= left {
            let to = start + size;
            copy(&front[start..to], dst);
            return;
        }
        let more = size - left;
        copy(&front[start..], &mut dst[..left]);
        copy(&rest[..more], &mut dst[left..]);
    }

    // The first place from `i` on where a or b stands, or the end.
    pub(crate) fn next_either(self, i: usize, a: u8, b: u8) -> usize
        requires { i ≤ length (bytes_of self) }
        ensures { NextEither (bytes_of self.entry) i a b result }
    {
        let front = self.front;
        let rest = self.rest;
        let n = front.len();
        if n <= i {
            let j = i - n;
            return i + plain_length(&rest[j..], a, b);
        }
        let at = i + plain_length(&front[i..], a, b);
        if at < n {
            return at;
        }
        n + plain_length(rest, a, b)
    }

    // How many bytes run through the next newline, or all.
    pub(crate) fn line_length(self) -> usize
        ensures { LineEnd (bytes_of self.entry) result }
    {
        let n = self.len();
        let at = self.next_either(0, b'\n', b'\n');
        if at < n { at + 1 } else { at }
    }

    // n bytes from `start` on are written into a buffer at a place.
    pub(crate) fn fill(self, start: usize, n: usize, buffer: &mut [u8], at: usize)
        requires { (start + n ≤ length (bytes_of self)) × (at + n ≤ length buffer.old) }
        ensures { Filled buffer.old at (take n (drop start (bytes_of self.entry))) buffer.new }
    {
        let end = at + n;
        self.copy_to(start, &mut buffer[at..end]);
    }
}
