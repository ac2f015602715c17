// Where a text first stands in another, and bytes replaced by their partners.
#![tactic(auto)]

ghost use Rattle.std.specs.Prelude.{◌≡◌, [], ◌∷◌, ◌<◌, length};
ghost use Rattle.matching.specs.Places.{placed};
ghost use Rattle.matching.specs.Partners.{nothing, partner_table, entry_for, replaced, Fitted};

mod borders;

// A needle that no table of borders is long enough for, so that it was not looked for.
#[derive(Clone, Copy, PartialEq, Eq, Debug)]
pub struct TooLong;

// Where `needle` first stands in `text`, in time linear in their lengths. A longer needle than the text stands nowhere; any other of more than
// 32,768 bytes is too long for the table of borders.
pub fn first_place(needle: &[u8], text: &[u8]) -> Result<Option<usize>, TooLong>
    ensures { result ≡ placed needle.now text.now }
{
    if text.len() < needle.len() {
        return Ok(None);
    }
    if needle.len() == 0 {
        return Ok(Some(0));
    }
    if needle.len() <= borders::SHORT {
        return Ok(borders::place::<{ borders::SHORT }>(needle, text));
    }
    if needle.len() <= borders::LONGEST {
        return Ok(borders::place::<{ borders::LONGEST }>(needle, text));
    }
    Err(TooLong)
}

// Entries of a table of partners that are no byte: the byte itself stands there, or nothing. (An entry is a number and no enum, since whoever has
// any table of numbers may have a text replaced by it.)
const STAYS: u16 = 256;

const NOTHING: u16 = 257;

// A table of what stands for each byte: an entry below 256 is that byte, else `STAYS` or `NOTHING`. For a byte of `from` its partner
// stands there, the byte at the same place of `to`. They are entered from the last to the first, so that of a repeated byte the first counts.
pub fn partners_of(from: &[u8], to: &[u8]) -> [u16; 256]
    ensures { result ≡ partner_table from.now to.now }
{
    let mut table = [STAYS; 256];
    // By places, since what `enumerate` and `rev` hand over was not proved to be the bytes from the last on.
    for i in (0..from.len()).rev() {
        table[from[i] as usize] = match to.get(i) {
            Some(y) => *y as u16,
            None => NOTHING,
        };
    }
    table
}

// How long `s` is with its bytes replaced by a table, whatever it holds; by that of `partners_of` it is transliterated.
pub fn translit_length(table: &[u16; 256], s: &[u8]) -> usize
    ensures { result ≡ length (replaced table.now s.now) }
{
    // A loop, since a filter's count has more instructions for each byte.
    let mut n = 0;
    for b in s {
        if table[*b as usize] < NOTHING {
            n += 1;
        }
    }
    n
}

// What an entry that deletes nothing puts for the byte b.
fn put(t: u16, b: u8) -> u8
    requires { t < nothing }
    ensures { entry_for b t ≡ result ∷ [] }
{
    u8::try_from(t).unwrap_or(b)
}

// Writes `s` with its bytes replaced by a table, whatever it holds, from the front of a slice on, as far as there is room; whether it just fits. By the
// table of `partners_of` it is transliterated.
pub fn translit(table: &[u16; 256], s: &[u8], out: &mut [u8]) -> bool
    ensures { Fitted (replaced table.now s.now) out.old result out.new }
{
    // What is deleted takes no room, so the place to write at is counted apart.
    let mut j = 0;
    for b in s {
        let t = table[*b as usize];
        if t < NOTHING {
            if j == out.len() {
                return false;
            }
            out[j] = put(t, *b);
            j += 1;
        }
    }
    j == out.len()
}
