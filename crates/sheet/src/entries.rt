// Lines: a name, `=`, a reading.
ghost use Rattle.std.specs.Prelude.{◌≡◌, ◌+◌, ◌<◌, ◌^◌, length};
ghost use Rattle.rules.specs.Sheets.{entry_at};
ghost use Rattle.sheet.specs.Lines.{until_newline};

use crate::values;
use rules::Entry;

// How many bytes stand before the first newline, or all.
pub(crate) fn until_newline(s: &[u8]) -> usize
    ensures { result ≡ until_newline s.now }
{
    s.iter().take_while(|byte| **byte != b'\n').count()
}

// The line that is the whole slice, which stands at a place of the text.
pub(crate) fn line_at(s: &[u8], place: usize) -> Option<Entry>
    requires { place + length s.now < 2 ^ 63 }
    ensures { result ≡ entry_at place s.now }
{
    let n = ascii::name_length(s);
    if !ascii::is_name(&s[..n]) {
        return None;
    }
    let behind = &s[n..];
    let [b'=', reading @ ..] = behind else {
        return None;
    };
    let value = values::value_at(reading, place + n + 1)?;
    Some(Entry {
        name: place,
        length: n,
        value,
    })
}
