// The quote and comment marks: which are good, and the four in force.
ghost use Rattle.std.specs.Prelude.{◌≡◌, ◌≤◌, [], ◌∷◌, length};
ghost use Rattle.rules.specs.Marks.{is_barred, none_barred, is_mark, is_end_mark, default_marks, mark_text, mark_texts};
ghost use Rattle.expander.specs.Tokens.{GoodMarks};

use crate::buffers;
use rules::{Mark, Marks};

// No mark may have the byte.
fn is_barred(x: u8) -> bool
    ensures { result ≡ is_barred x }
{
    if ascii::continues_name(x) {
        return true;
    }
    ascii::is_blank(x) || matches!(x, b'(' | b')' | b',')
}

fn none_barred(w: &[u8]) -> bool
    ensures { result ≡ none_barred w.now }
{
    w.iter().all(|x| !is_barred(*x))
}

pub(crate) fn is_mark(w: &[u8]) -> bool
    ensures { result ≡ is_mark w.now }
{
    if w.is_empty() {
        return false;
    }
    w.len() <= 5 && none_barred(w)
}

pub(crate) fn is_end_mark(w: &[u8]) -> bool
    ensures { result ≡ is_end_mark w.now }
{
    is_mark(w) || ascii::same(w, b"\n")
}

// A text of at most five bytes as a mark.
pub(crate) fn mark_of(w: &[u8]) -> Mark
    requires { length w.now ≤ 5 }
    ensures { (mark_text result ≡ w.now) × (result.len ≡ length w.now) }
{
    let mut bytes = [0; 5];
    buffers::copy(w, &mut bytes[..w.len()]);
    Mark {
        bytes,
        len: w.len() as u8,
    }
}

// A mark of one byte.
fn single(byte: u8) -> Mark
    ensures { (mark_text result ≡ byte ∷ []) × (result.len ≡ 1) }
{
    Mark {
        bytes: [byte, 0, 0, 0, 0],
        len: 1,
    }
}

// ` ' # and newline.
pub(crate) fn default_marks() -> Marks
    ensures { (mark_texts result ≡ default_marks) × GoodMarks result }
{
    Marks {
        begin_quote: single(b'`'),
        end_quote: single(b'\''),
        begin_comment: single(b'#'),
        end_comment: single(b'\n'),
    }
}
