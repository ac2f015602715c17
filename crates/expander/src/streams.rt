// Streams 1 to 9 in one lent buffer, in order of arrival: beside each of the first `used` bytes stands its owner, the number of
// its stream. An append moves nothing; whatever else there is takes a fixed number of passes.
ghost use Rattle.std.specs.Prelude.{◌≡◌, ℕ, ◌+◌, ◌-◌, ◌^◌, ◌<◌, ◌≤◌, List, [], ◌++◌, length, take, drop, replicate, ◌≢◌, slice_index, slice_set};
ghost use Rattle.rules.specs.Bytes.{Bytes};
ghost use Rattle.rules.specs.Streams.{joined};
ghost use Rattle.expander.specs.Streams.{owned_by, owns_one, owned_count, owned_below, sum_below, Ten, IsStream, Owned, StreamsIn, extended, behind_stream};

use crate::buffers;

// 1 where the owner o is i, else 0.
fn of_stream(o: u8, i: u8) -> usize
    ensures { (result ≡ owns_one o i) × (result ≤ 1) }
{
    if o == i { 1 } else { 0 }
}

// The next n bytes belong to stream i.
pub(crate) fn own(owners: &mut [u8], from: usize, n: usize, i: u8)
    requires { from + n ≤ length owners.old }
    ensures { owners.new ≡ take from owners.old ++ (replicate n i ++ drop (from + n) owners.old) }
{
    let end = from + n;
    owners[from..end].fill(i);
}

// s behind stream i; returns how much is in use then.
fn append(bytes: &mut [u8], owners: &mut [u8], used: usize, i: u8, s: &[u8]) -> usize
    requires { (used + length s.now ≤ length bytes.old) × (used + length s.now ≤ length owners.old) }
    ensures { (result ≡ used + length s.now) × ((ws : List Bytes) → IsStream i → StreamsIn bytes.old owners.old used ws → StreamsIn bytes.new owners.new result (extended i s.now ws)) }
{
    let n = s.len();
    buffers::fill_slice(s, bytes, used);
    own(owners, used, n, i);
    used + n
}

// How many bytes stream i has.
pub(crate) fn count(owners: &[u8], used: usize, i: u8) -> usize
    requires { used ≤ length owners.now }
    ensures { result ≡ owned_count i (take used owners.now) }
{
    owners[..used].iter().filter(|o| **o == i).count()
}

// The text of stream i, into a slice of its length: once that is full, the pass ends.
pub(crate) fn extract(bytes: &[u8], owners: &[u8], used: usize, i: u8, dst: &mut [u8])
    requires used_in_bounds { (used ≤ length bytes.now) × (used ≤ length owners.now) }
    requires dst_len { length dst.old ≡ owned_count i (take used owners.now) }
    ensures { dst.new ≡ owned_by i (take used owners.now) (take used bytes.now) }
{
    let mut n = 0;
    let mut k = 0;
    // Two places move, and the one in `dst` ends the pass, so no range fits.
    while n < dst.len() {
        dst[n] = bytes[k];
        n += of_stream(owners[k], i);
        k += 1;
    }
}

// Stream i is emptied, and the bytes of the others close up; returns how much is in use then.
pub(crate) fn compact(bytes: &mut [u8], owners: &mut [u8], used: usize, i: u8) -> usize
    requires { (used ≤ length bytes.old) × (used ≤ length owners.old) }
    ensures { (result + owned_count i (take used owners.old) ≡ used) × ((ws : List Bytes) → IsStream i → StreamsIn bytes.old owners.old used ws → StreamsIn bytes.new owners.new result (slice_set ws (i - 1) [])) }
{
    let mut n = 0;
    for k in 0..used {
        let o = owners[k];
        bytes[n] = bytes[k];
        owners[n] = o;
        n += 1 - of_stream(o, i);
    }
    n
}

// The text of stream i goes behind that of stream j, by way of `text`, which has its length.
fn carry(bytes: &mut [u8], owners: &mut [u8], used: usize, i: u8, j: u8, text: &mut [u8])
    requires used_in_bounds { (used ≤ length bytes.old) × (used ≤ length owners.old) }
    requires text_len { length text.old ≡ owned_count i (take used owners.old) }
    ensures { (ws : List Bytes) → IsStream i → IsStream j → (i ≢ j) → StreamsIn bytes.old owners.old used ws → StreamsIn bytes.new owners.new used (behind_stream i j ws) }
{
    extract(bytes, owners, used, i, text);
    let kept = compact(bytes, owners, used, i);
    append(bytes, owners, kept, j, text);
}

// The same by way of the front of `scratch`. An empty stream is left alone.
pub(crate) fn move_stream(
    bytes: &mut [u8],
    owners: &mut [u8],
    used: usize,
    i: u8,
    j: u8,
    scratch: &mut [u8],
)
    requires { (used ≤ length bytes.old) × (used ≤ length owners.old) × (used ≤ length scratch.old) }
    ensures { (ws : List Bytes) → IsStream i → IsStream j → (i ≢ j) → StreamsIn bytes.old owners.old used ws → StreamsIn bytes.new owners.new used (behind_stream i j ws) }
{
    let n = count(owners, used, i);
    if n == 0 {
        return;
    }
    carry(bytes, owners, used, i, j, &mut scratch[..n]);
}

// How many bytes each stream has, into a list of zeros.
pub(crate) fn tally(owners: &[u8], used: usize, counts: &mut [usize; 10])
    requires used_in_bounds { (used ≤ length owners.now) × ((k : ℕ) → k < used → slice_index owners.now k < 10) }
    requires counts_value { counts.old ≡ replicate 10 0 }
    ensures { Ten (λ i. owned_count i (take used owners.now)) counts.new }
{
    for o in &owners[..used] {
        counts[*o as usize] += 1;
    }
}

// Each of ten numbers becomes the sum of those before it.
fn sum_before(numbers: &mut [usize; 10])
    requires { (length numbers.old ≡ 10) × (sum_below 10 numbers.old < 2 ^ 64) }
    ensures { Ten (λ i. sum_below i numbers.old) numbers.new }
{
    let mut sum = 0;
    for n in numbers {
        let before = sum;
        sum += *n;
        *n = before;
    }
}

// Each byte goes to where its stream goes on: next[i] for stream i, which begins behind those below it.
fn place(bytes: &[u8], owners: &[u8], used: usize, next: &mut [usize; 10], dst: &mut [u8])
    requires owned { Owned bytes.now owners.now used }
    requires dst_len { length dst.old ≡ used }
    requires ten { Ten (λ i. owned_below i (take used owners.now)) next.old }
    ensures { (ws : List Bytes) → StreamsIn bytes.now owners.now used ws → dst.new ≡ joined ws }
{
    for k in 0..used {
        let o = owners[k] as usize;
        let at = next[o];
        dst[at] = bytes[k];
        next[o] = at + 1;
    }
}

// The texts of streams 1 to 9 one after the other, into a slice of their length.
pub(crate) fn finish(bytes: &[u8], owners: &[u8], used: usize, dst: &mut [u8])
    requires owned { Owned bytes.now owners.now used }
    requires dst_len { length dst.old ≡ used }
    ensures { (ws : List Bytes) → StreamsIn bytes.now owners.now used ws → dst.new ≡ joined ws }
{
    let mut next = [0usize; 10];
    tally(owners, used, &mut next);
    sum_before(&mut next);
    place(bytes, owners, used, &mut next, dst);
}
