// The meaning of each definition, as a byte beside it: 0 for a text, else the number of a predefined macro. The bytes stand in the array of the table's
// ends, behind these, four in a word, the least first; so no function is lent another slice for them.
ghost use Rattle.std.specs.Prelude.{◌≡◌, ◌<◌, ◌≤◌, length};
ghost use Rattle.expander.specs.Limits.{most_lent, table_ends_length};
ghost use Rattle.expander.specs.Meanings.{number_at, Put, ClosedUp};

use crate::fields;
use crate::limits::MEANINGS;

// The byte of definition i.
pub(crate) fn number_at(ends: &[u32], i: usize) -> u8
    requires { (length ends.now ≡ table_ends_length) × (i < most_lent) }
    ensures { result ≡ number_at ends.now i }
{
    fields::get::<8>(ends, MEANINGS, i) as u8
}

// The byte of definition i becomes `number`.
pub(crate) fn put(ends: &mut [u32], i: usize, number: u8)
    requires { (length ends.old ≡ table_ends_length) × (i < most_lent) }
    ensures { Put ends.old i number ends.new }
{
    fields::put::<8>(ends, MEANINGS, i, number as u32);
}

// Definition i has gone, of n: the bytes of those behind it move down by one.
pub(crate) fn close_up(ends: &mut [u32], i: usize, n: usize)
    requires { (length ends.old ≡ table_ends_length) × (i < n) × (n ≤ most_lent) }
    ensures { ClosedUp ends.old i n ends.new }
{
    for j in i..n - 1 {
        let number = number_at(ends, j + 1);
        put(ends, j, number);
    }
}
