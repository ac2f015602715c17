// Decimals: an optional minus, digits, a point, digits.
ghost use Rattle.std.specs.Prelude.{◌≡◌, suc, ◌*◌, ◌^◌, ◌≤◌, ◌<◌, length, take, Some};
ghost use Rattle.rules.specs.Numerals.{natural_from};
ghost use Rattle.rules.specs.Sheets.{digit_count, unsigned_decimal, decimal_value};

use crate::MOST_DIGITS;

// Digits at the front of a slice: how many, and the number that they write.
#[derive(Clone, Copy)]
struct Digits {
    count: usize,
    number: u64,
}

// The digits at the front of s; their number is that of all digits, those of v first.
fn digits_of(s: &[u8], v: u64) -> Digits
    requires { suc v * 10 ^ length s.now ≤ 10000000000000000 }
    ensures count { result.count ≡ digit_count s.now }
    ensures number { natural_from 10 v (take result.count s.now) ≡ Some result.number }
    ensures bounded { result.number < suc v * 10 ^ result.count }
{
    let mut number = v;
    for (i, byte) in s.iter().enumerate() {
        if !ascii::is_digit(*byte) {
            return Digits { count: i, number };
        }
        number = number * 10 + u64::from(*byte - b'0');
    }
    Digits {
        count: s.len(),
        number,
    }
}

// A decimal without its minus. Its digits and the point are all of its bytes.
fn read_unsigned(s: &[u8]) -> Option<f64>
    ensures { result ≡ unsigned_decimal s.now }
{
    if MOST_DIGITS + 1 < s.len() {
        return None;
    }
    let whole = digits_of(s, 0);
    let behind = &s[whole.count..];
    let [b'.', places @ ..] = behind else {
        return None;
    };
    let part = digits_of(places, whole.number);
    if whole.count == 0 || places.len() == 0 || part.count != places.len() {
        return None;
    }
    Some(part.number as f64 / 10_u64.pow(places.len() as u32) as f64)
}

// A decimal: negated behind its minus, so that a zero keeps its sign.
pub(crate) fn read_decimal(s: &[u8]) -> Option<f64>
    ensures { result ≡ decimal_value s.now }
{
    // Both branches of a slice pattern would meet at one call, and the proof then lacks the byte.
    if s.len() == 0 || s[0] != b'-' {
        return read_unsigned(s);
    }
    Some(-read_unsigned(&s[1..])?)
}
