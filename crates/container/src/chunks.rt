// Bytes in chunks: a byte of kind, which is the chunk's size, and so many bytes; each chunk is full at 128 bytes but the last.
ghost use Rattle.std.specs.Prelude.{◌≡◌, ◌+◌, ◌-◌, ◌≤◌, ◌<◌, ◌/◌, ◌^◌, suc, length, take, drop};
ghost use Rattle.std.specs.Option.{option_map};
ghost use Rattle.std.proofs.Math.Seq.{paste};
ghost use Rattle.rules.specs.Chunks.{least_first, chunks_read};

// The size of a full chunk.
pub(crate) const FULL: usize = 128;

// The 32-bit number at a place, least byte first.
pub(crate) fn number_at(w: &[u8], at: usize) -> usize
    requires { at + 4 ≤ length w.now }
    ensures value { result ≡ least_first (take 4 (drop at w.now)) }
    ensures upper_bound { result < 2 ^ 32 }
{
    u32::from_le_bytes([w[at], w[at + 1], w[at + 2], w[at + 3]]) as usize
}

// The place behind so many bytes in chunks, if they can be read. Each chunk has the kind that is due: what is still to come, or 128.
pub(crate) fn end_of(w: &[u8], at: usize, count: usize) -> Option<usize>
    requires { at ≤ length w.now }
    ensures { result ≡ option_map (λ c. length w.now - length c.rest) (chunks_read count (drop at w.now)) }
{
    // Place and count move together, by a step that the count sets, so no iterator fits.
    let mut i = at;
    let mut owed = count;
    while 0 < owed {
        let kind = owed.min(FULL);
        if w.len() - i <= kind {
            return None;
        }
        if usize::from(w[i]) != kind {
            return None;
        }
        i += kind + 1;
        owed -= kind;
    }
    Some(i)
}

// Where the byte with number j stands, of bytes in chunks from a place on: the kind of its chunk comes before it, and those of the chunks before.
pub(crate) fn place_of(at: usize, j: usize) -> usize
    requires { at + suc (j + j / 128) < 2 ^ 64 }
    ensures { result ≡ at + suc (j + j / 128) }
{
    at + 1 + j + j / FULL
}

// Copies n bytes from a place on over those of a slice from `to` on. (With `copy_from_slice` in its place, an include of a long text took more than
// twice the instructions, and more than tests/costs allows.)
pub(crate) fn copy_run(w: &[u8], from: usize, into: &mut [u8], to: usize, n: usize)
    requires n_in_bounds { from + n ≤ length w.now }
    requires n_in_bounds_2 { to + n ≤ length into.old }
    ensures { into.new ≡ paste into.old to (drop from w.now) n }
{
    for i in 0..n {
        into[to + i] = w[from + i];
    }
}
