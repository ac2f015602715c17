// The search by borders (Knuth, Morris and Pratt). A border of a text is one that it both begins and ends with: after a mismatch, the longest
// border of what matched is what still stands.
ghost use Rattle.std.specs.Prelude.{◌≡◌, ◌≤◌, ◌<◌, length};
ghost use Rattle.rules.specs.Tokens.{first_place};
ghost use Rattle.matching.specs.Places.{longest_needle};
ghost use Rattle.matching.specs.Borders.{Bordered, GoesOn};

// Needles that take the small table of borders, and those that take the large one.
pub(crate) const SHORT: usize = 64;

pub(crate) const LONGEST: usize = 32768;

// How many bytes of `needle` end with the byte x, where `matched` of them end before it: what matched goes on with x, or the longest border of it that does.
fn go_on(needle: &[u8], table: &[u16], matched: usize, x: u8) -> usize
    requires { (matched < length needle.now) × (length needle.now ≤ length table.now) × Bordered needle.now table.now matched }
    ensures { GoesOn needle.now matched x result }
{
    // The table says where it goes on, so no iterator fits.
    let mut k = matched;
    while needle[k] != x {
        if k == 0 {
            return 0;
        }
        k = table[k - 1] as usize;
    }
    k + 1
}

// For each front of `needle`, how long its longest border is.
fn fill(needle: &[u8], table: &mut [u16])
    requires { (0 < length needle.now) × (length needle.now ≤ longest_needle) × (length needle.now ≤ length table.old) }
    ensures { Bordered needle.now table.new (length needle.now) }
{
    table[0] = 0;
    let mut k = 0;
    for i in 1..needle.len() {
        k = go_on(needle, &*table, k, needle[i]);
        table[i] = k as u16;
    }
}

// Goes along `text`; the first k bytes of `needle` end at i.
fn search(needle: &[u8], table: &[u16], text: &[u8]) -> Option<usize>
    requires { (0 < length needle.now) × (length needle.now ≤ length table.now) × Bordered needle.now table.now (length needle.now) }
    ensures { result ≡ first_place needle.now text.now }
{
    let mut k = 0;
    for (i, x) in text.iter().enumerate() {
        k = go_on(needle, table, k, *x);
        if k == needle.len() {
            return Some(i + 1 - k);
        }
    }
    None
}

// Both, with a table of `MOST` borders. Each size is a function of its own, so that clearing the long table is not paid for a short needle.
#[inline(never)]
pub(crate) fn place<const MOST: usize>(needle: &[u8], text: &[u8]) -> Option<usize>
    requires { (0 < length needle.now) × (length needle.now ≤ MOST) × (MOST ≤ longest_needle) }
    ensures { result ≡ first_place needle.now text.now }
{
    let mut table = [0u16; MOST];
    fill(needle, &mut table);
    search(needle, &table, text)
}
