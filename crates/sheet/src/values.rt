// Readings: a number, a decimal or a word.
ghost use Rattle.std.specs.Prelude.{◌≡◌};
ghost use Rattle.rules.specs.Sheets.{value_at};

use crate::decimals;
use rules::Value;

// The reading that is the whole slice, which stands at a place of the text.
pub(crate) fn value_at(s: &[u8], place: usize) -> Option<Value>
    ensures { result ≡ value_at place s.now }
{
    if let Some(n) = numerals::read_number(s) {
        return Some(Value::Number(n));
    }
    if let Some(x) = decimals::read_decimal(s) {
        return Some(Value::Decimal(x));
    }
    ascii::is_name(s).then_some(Value::Word {
        place,
        length: s.len(),
    })
}
