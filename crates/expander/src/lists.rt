// Arguments joined by a byte, each between quote marks. Bare marks give the plain list. A list is measured off its links, without a
// look at its bytes, and then written.
ghost use Rattle.std.specs.Prelude.{◌≡◌, ℕ, ◌+◌, ◌*◌, ◌≤◌, List, ◌∷◌, length, drop};
ghost use Rattle.rules.specs.Bytes.{Bytes};
ghost use Rattle.rules.specs.Marks.{mark_text, mark_texts, quoted};
ghost use Rattle.rules.specs.Arguments.{arg, separated, quoted_each};
ghost use Rattle.expander.specs.Arguments.{args_of, ShortQuotes};
ghost use Rattle.expander.specs.Filled.{Filled};
ghost use Rattle.expander.specs.Limits.{most_lent};

use crate::argument_strings::Arguments;
use crate::{buffers, packed};
use rules::{Mark, Marks};

// Marks of no bytes.
pub(crate) fn bare_marks() -> Marks
    ensures { ShortQuotes result × ((ws : List Bytes) → quoted_each (mark_texts result) ws ≡ ws) }
{
    let none = Mark {
        bytes: [0, 0, 0, 0, 0],
        len: 0,
    };
    Marks {
        begin_quote: none,
        end_quote: none,
        begin_comment: none,
        end_comment: none,
    }
}

// How long the arguments behind the first `skip` are, joined.
pub(crate) fn list_length(x: Arguments, skip: usize, marks: Marks) -> usize
    requires { ShortQuotes marks × (skip ≤ most_lent) }
    ensures { ((gap : ℕ) → result ≡ length (separated gap (quoted_each (mark_texts marks) (drop skip (args_of x.entry))))) × (result ≤ 2 * most_lent) }
{
    let have = x.count();
    if have <= skip {
        return 0;
    }
    let n = have - skip;
    let k = x.base + skip;
    let start = packed::start(x.ends, k);
    let begin = marks.begin_quote.len as usize;
    let end = marks.end_quote.len as usize;
    let quotes = begin + end;
    let text = x.strings.used - start;
    let gaps = n - 1;
    let around = n * quotes;
    text + gaps + around
}

// The bytes of a mark, into a buffer at a place; returns the place behind them.
fn fill_mark(m: Mark, dst: &mut [u8], at: usize) -> usize
    requires { (m.len ≤ 5) × (at + m.len ≤ length dst.old) }
    ensures { Filled dst.old at (mark_text m) dst.new × (result ≡ at + m.len) }
{
    let n = m.len as usize;
    buffers::fill_slice(&m.bytes[..n], dst, at);
    at + n
}

// A text between quote marks, into a buffer at a place; returns the place behind it.
pub(crate) fn fill_quoted(s: &[u8], marks: Marks, dst: &mut [u8], at: usize) -> usize
    requires { ShortQuotes marks × (at + length (quoted (mark_texts marks) s.now) ≤ length dst.old) }
    ensures { Filled dst.old at (quoted (mark_texts marks) s.now) dst.new × (result ≡ at + length (quoted (mark_texts marks) s.now)) }
{
    let text = fill_mark(marks.begin_quote, dst, at);
    let end = text + s.len();
    buffers::fill_slice(s, dst, text);
    fill_mark(marks.end_quote, dst, end)
}

// The n-th argument between quote marks behind the byte `gap`, into a buffer at a place; returns the place behind it.
fn fill_next(x: Arguments, n: usize, marks: Marks, gap: u8, dst: &mut [u8], at: usize) -> usize
    requires short_quotes { ShortQuotes marks × (1 ≤ n) × (n ≤ most_lent) }
    requires args_in_bounds { at + length (gap ∷ quoted (mark_texts marks) (arg n (args_of x))) ≤ length dst.old }
    ensures { Filled dst.old at (gap ∷ quoted (mark_texts marks) (arg n (args_of x.entry))) dst.new × (result ≡ at + length (gap ∷ quoted (mark_texts marks) (arg n (args_of x.entry)))) }
{
    let text = at + 1;
    dst[at] = gap;
    fill_quoted(x.argument(n), marks, dst, text)
}

// The arguments behind the first `skip`, joined, into a buffer at a place.
pub(crate) fn fill_list(x: Arguments, skip: usize, marks: Marks, gap: u8, dst: &mut [u8], at: usize)
    requires short_quotes { ShortQuotes marks × (skip ≤ most_lent) }
    requires args_in_bounds { at + length (separated gap (quoted_each (mark_texts marks) (drop skip (args_of x)))) ≤ length dst.old }
    ensures { Filled dst.old at (separated gap (quoted_each (mark_texts marks) (drop skip (args_of x.entry)))) dst.new }
{
    let have = x.count();
    if have <= skip {
        return;
    }
    let mut to = fill_quoted(x.argument(skip + 1), marks, dst, at);
    for k in skip + 1..have {
        to = fill_next(x, k + 1, marks, gap, dst, to);
    }
}
