// Named texts in the form that 02, request 1, calls the house form: whether a set of them is good, the item at a place, the first item with a
// name, and an item's text copied out. A text lies in chunks, so no part of the set is the text.
#![tactic(auto)]

mod chunks;

ghost use Rattle.std.specs.Prelude.{◌≡◌, ◌+◌, ◌≤◌, length, take, drop, is_some};
ghost use Rattle.rules.specs.Bytes.{same_bytes};
ghost use Rattle.rules.specs.Sets.{set_items};
ghost use Rattle.container.specs.Items.{item_at, joined_at, first_named, Copied};

// The longest set.
const LONGEST: usize = 1048576;

// The kind that ends a set, the one that begins an item, and the length of an item's kind and body.
const END: u8 = 0;

const ITEM: u8 = 129;

const HEAD: usize = 9;

// An item: the lengths of its name and text, and the place behind it.
#[derive(Clone, Copy)]
pub struct Item {
    pub name: usize,
    pub text: usize,
    pub end: usize,
}

// The place of an item, and the length of its text.
#[derive(Clone, Copy)]
pub struct Found {
    pub place: usize,
    pub length: usize,
}

// The item whose kind stands at a place, if it can be read.
pub fn item_at(set: &[u8], place: usize) -> Option<Item>
    ensures { result ≡ item_at set.now place }
{
    if set.len().saturating_sub(place) < HEAD {
        return None;
    }
    if set[place] != ITEM {
        return None;
    }
    let name = chunks::number_at(set, place + 1);
    let text = chunks::number_at(set, place + 5);
    let end = chunks::end_of(set, place + HEAD, name + text)?;
    Some(Item { name, text, end })
}

// Whether a set is good: not too long, and items up to one kind 0 at its end.
pub fn is_good(set: &[u8]) -> bool
    ensures { result ≡ is_some (set_items set.now) }
{
    if LONGEST < set.len() {
        return false;
    }
    let mut i = 0;
    while let Some(item) = item_at(set, i) {
        i = item.end;
    }
    set.len() - i == 1 && set[i] == END
}

// Whether the name and text of the item at a place, joined, begin with a name.
fn begins_with(set: &[u8], place: usize, name: &[u8]) -> bool
    requires { length name.now ≤ length (joined_at set.now place) }
    ensures { result ≡ same_bytes name.now (take (length name.now) (joined_at set.now place)) }
{
    // With `all` in its place, the proof did not close that each byte that is looked at lies in the set.
    for (j, x) in name.iter().enumerate() {
        if set[chunks::place_of(place + HEAD, j)] != *x {
            return false;
        }
    }
    true
}

// The first item with a name, of those that can be read before the first that can't.
pub fn find(set: &[u8], name: &[u8]) -> Option<Found>
    ensures { result ≡ first_named set.now name.now }
{
    let mut place = 0;
    while let Some(item) = item_at(set, place) {
        if item.name == name.len() && begins_with(set, place, name) {
            return Some(Found {
                place,
                length: item.text,
            });
        }
        place = item.end;
    }
    None
}

// Copies from the name and text of the item at a place, joined, what stands behind the first `skip` bytes, over a slice: as much at once as lies in
// one chunk.
fn copy_behind(set: &[u8], place: usize, skip: usize, into: &mut [u8])
    requires { skip + length into.old ≤ length (joined_at set.now place) }
    ensures { into.new ≡ take (length into.old) (drop skip (joined_at set.now place)) }
{
    // The first piece is as long as its chunk allows and the last as the slice does, so no iterator over equal parts fits.
    let size = into.len();
    let mut k = 0;
    while k < size {
        let j = skip + k;
        let n = (chunks::FULL - j % chunks::FULL).min(size - k);
        let from = chunks::place_of(place + HEAD, j);
        chunks::copy_run(set, from, into, k, n);
        k += n;
    }
}

// Copies the text of the item at a place over the front of a slice; false, and nothing is written, where there is no item or the slice is shorter.
pub fn copy_text(set: &[u8], place: usize, into: &mut [u8]) -> bool
    ensures { Copied set.now place into.old result into.new }
{
    match item_at(set, place) {
        Some(item) if item.text <= into.len() => {
            copy_behind(set, place, item.name, &mut into[..item.text]);
            true
        }
        _ => false,
    }
}
