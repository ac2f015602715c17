// Numbers in texts: digits read, and 32-bit signed numbers read and written.
#![tactic(auto)]

ghost use Rattle.std.specs.Prelude.{◌≡◌, ℕ, ◌-◌, ◌<◌, ◌≤◌, true, [], ◌∷◌, ◌++◌, length, take};
ghost use Rattle.rules.specs.Words.{largest_bits};
ghost use Rattle.rules.specs.Numerals.{digit_worth, natural_from, natural, up_to, number, digit_byte, digits_in, zero_filled, written_in, decimal};
ghost use Rattle.numerals.specs.Answers.{is_radix, length_of, Written};

// What a digit is worth.
#[tactic(auto, using(rules::proofs::Classes::digit_bounds, rules::proofs::Classes::lower_bounds, rules::proofs::Classes::upper_bounds), unfolding(rules::specs::Numerals::digit_worth))]
fn digit_worth(b: u8) -> Option<u32>
    ensures { result ≡ digit_worth b }
{
    let x = u32::from(b);
    if ascii::is_digit(b) {
        Some(x - 48)
    } else if ascii::is_lower(b) {
        Some(x - 87)
    } else if ascii::is_upper(b) {
        Some(x - 55)
    } else {
        None
    }
}

// The byte b behind the digits of v. It works in 64 bits, since the library's `checked_mul` divides.
#[tactic(auto, using(crate::proofs::Reading::one_none, crate::proofs::Reading::one_on, crate::proofs::Reading::fits_natural))]
fn one_more(radix: u32, v: u32, b: u8) -> Option<u32>
    ensures { result ≡ up_to largest_bits (natural_from radix v (b ∷ [])) }
{
    let d = digit_worth(b)?;
    if radix <= d {
        return None;
    }
    u32::try_from(u64::from(v) * u64::from(radix) + u64::from(d)).ok()
}

// The digits of a radix that are the whole slice.
pub fn read_natural(s: &[u8], radix: u32) -> Option<u32>
    ensures { result ≡ up_to largest_bits (natural radix s.now) }
{
    if s.is_empty() {
        return None;
    }
    let mut v: u32 = 0;
    for b in s {
        v = one_more(radix, v, *b)?;
    }
    Some(v)
}

// A decimal argument: an optional minus and digits, within 32 bits.
pub fn read_number(s: &[u8]) -> Option<i32>
    ensures { result ≡ number s.now }
{
    match s {
        [b'-', digits @ ..] => 0i32.checked_sub_unsigned(read_natural(digits, 10)?),
        _ => 0i32.checked_add_unsigned(read_natural(s, 10)?),
    }
}

#[tactic(auto, unfolding(crate::specs::Answers::is_radix))]
fn is_radix(radix: u32) -> bool
    ensures { result ≡ is_radix radix }
{
    (2..=36).contains(&radix)
}

// How many digits v has: zero one, as 1 has.
fn digit_count(v: u32, radix: u32) -> usize
    requires { 2 ≤ radix }
    ensures is { result ≡ length (digits_in radix v) }
    ensures small { result ≤ 32 }
{
    v.max(1).ilog(radix) as usize + 1
}

fn length_in(x: i32, radix: u32, least: u32) -> usize
    requires { 2 ≤ radix }
    ensures { result ≡ length (written_in radix least x) }
{
    let n = digit_count(x.unsigned_abs(), radix).max(least as usize);
    if x < 0 { n + 1 } else { n }
}

// How many bytes `write_number` takes for a number.
#[tactic(auto, using(crate::proofs::Writing::radix_range, crate::proofs::Writing::good_length, crate::proofs::Writing::bad_length))]
pub fn written_length(x: i32, radix: u32, least: u32) -> Option<usize>
    ensures { result ≡ length_of radix (written_in radix least x) }
{
    if is_radix(radix) {
        Some(length_in(x, radix, least))
    } else {
        None
    }
}

#[tactic(auto, unfolding(rules::specs::Numerals::digit_byte))]
fn digit_byte(d: u32) -> u8
    requires { d < 36 }
    ensures { result ≡ digit_byte d }
{
    if d < 10 {
        (48 + d) as u8
    } else {
        (87 + d) as u8
    }
}

// Writes the digits of v at the end of `out`, the last one first, and tells where they begin. The loop ends with the digits: one over all bytes from the end would
// divide for each zero in front too, where `fill` does not.
fn write_digits(out: &mut [u8], v: u32, radix: u32) -> usize
    requires { (2 ≤ radix) × (radix ≤ 36) × (length (digits_in radix v) ≤ length out.old) }
    ensures place { result ≡ length out.old - length (digits_in radix v) }
    ensures text { out.new ≡ take result out.old ++ digits_in radix v }
{
    let mut left = v;
    let mut i = out.len();
    while radix <= left {
        i -= 1;
        out[i] = digit_byte(left % radix);
        left = left / radix;
    }
    i -= 1;
    out[i] = digit_byte(left);
    i
}

// Fills `out` with the digits of v behind zeros.
fn fill(out: &mut [u8], v: u32, radix: u32)
    requires { (2 ≤ radix) × (radix ≤ 36) × (length (digits_in radix v) ≤ length out.old) }
    ensures { out.new ≡ zero_filled (length out.old) (digits_in radix v) }
{
    let start = write_digits(out, v, radix);
    out[..start].fill(b'0');
}

// The same behind a minus.
fn fill_minus(out: &mut [u8], v: u32, radix: u32)
    requires { (2 ≤ radix) × (radix ≤ 36) × (length (digits_in radix v) < length out.old) }
    ensures { out.new ≡ 45 ∷ zero_filled (length out.old - 1) (digits_in radix v) }
{
    out[0] = b'-';
    fill(&mut out[1..], v, radix);
}

// Fills `out` with the text of a number that is as long.
fn fill_text(out: &mut [u8], x: i32, radix: u32)
    requires { (2 ≤ radix) × (radix ≤ 36) × (length (written_in radix 0 x) ≤ length out.old) }
    ensures { (least : ℕ) → length (written_in radix least x) ≡ length out.old → out.new ≡ written_in radix least x }
{
    let m = x.unsigned_abs();
    if x < 0 {
        fill_minus(out, m, radix);
    } else {
        fill(out, m, radix);
    }
}

// Writes a number in a radix with a least count of digits into a slice of just that length. False, and nothing is written, for a
// slice of another length and for a radix outside 2 to 36.
pub fn write_number(out: &mut [u8], x: i32, radix: u32, least: u32) -> bool
    ensures { Written (is_radix radix) (written_in radix least x) out.old result out.new }
{
    if written_length(x, radix, least) != Some(out.len()) {
        return false;
    }
    fill_text(out, x, radix);
    true
}

// How many bytes `write_decimal` takes for a number.
#[tactic(auto, unfolding(rules::specs::Numerals::decimal))]
pub fn decimal_length(x: i32) -> usize
    ensures { result ≡ length (decimal x) }
{
    length_in(x, 10, 0)
}

// Writes a number in decimal into a slice of just its length. False, and nothing is written, for a slice of another length.
#[tactic(auto, unfolding(rules::specs::Numerals::decimal, crate::specs::Answers::is_radix))]
pub fn write_decimal(out: &mut [u8], x: i32) -> bool
    ensures { Written true (decimal x) out.old result out.new }
{
    write_number(out, x, 10, 0)
}
