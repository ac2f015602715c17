// Text written into a buffer: at a place, before what stands there, over the front; or all zero.
ghost use Rattle.std.specs.Prelude.{◌≡◌, ◌+◌, ◌-◌, ◌≤◌, ◌++◌, length, drop, replicate};
ghost use Rattle.expander.specs.Filled.{Filled};
ghost use Rattle.rules.specs.Contract.{fronted};

// Copies one slice into another of its length. (`copy_from_slice` became a call of memmove where a buffer is lent: the library for C would ask its host
// for that, too, and arguments of few bytes took twice the instructions.)
pub(crate) fn copy(from: &[u8], into: &mut [u8])
    requires { length from.now ≡ length into.old }
    ensures { into.new ≡ from.now }
{
    for i in 0..from.len() {
        into[i] = from[i];
    }
}

// A slice at a place.
pub(crate) fn fill_slice(s: &[u8], buffer: &mut [u8], at: usize)
    requires { at + length s.now ≤ length buffer.old }
    ensures { Filled buffer.old at s.now buffer.new }
{
    let end = at + s.len();
    copy(s, &mut buffer[at..end]);
}

// s in front of the text that stands from `from` on; returns where it begins.
pub(crate) fn push(buffer: &mut [u8], from: usize, s: &[u8]) -> usize
    requires { (length s.now ≤ from) × (from ≤ length buffer.old) }
    ensures { (result ≡ from - length s.now) × (drop result buffer.new ≡ s.now ++ drop from buffer.old) }
{
    let at = from - s.len();
    fill_slice(s, buffer, at);
    at
}

// All zero.
pub(crate) fn clear(b: &mut [u8])
    ensures { b.new ≡ replicate (length b.old) 0 }
{
    b.fill(0);
}

// src over the front of dst.
pub(crate) fn copy_front(src: &[u8], dst: &mut [u8])
    requires { length src.now ≤ length dst.old }
    ensures { dst.new ≡ fronted src.now dst.old }
{
    fill_slice(src, dst, 0);
}
