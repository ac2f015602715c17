// What class a byte has, and the shape of a name; and two slices compared and copied.
#![tactic(auto)]

ghost use Rattle.std.specs.Prelude.{◌≡◌};
ghost use Rattle.rules.specs.Bytes.{is_upper, is_lower, class_of, is_letter, is_digit, is_underscore, is_blank, begins_name, continues_name, name_length, is_name, same_bytes};
ghost use Rattle.ascii.specs.Copied.{Copied};

use rules::Class;

// The class of a byte, by ranges: every reader asks here. First come the bytes below the digits, then the digits, then letters and underscore: so the compiler
// makes each test below as short as one with a range of its own (docs/DECISIONS.md, "Document 02").
pub fn class_of(x: u8) -> Class
    ensures { result ≡ class_of x }
{
    if x < b'0' {
        return match x {
            b'\t' | b'\n' | b' ' => Class::Blank,
            _ => Class::Other,
        };
    }
    if x <= b'9' {
        return Class::Digit;
    }
    if is_upper(x) {
        return Class::Letter;
    }
    if is_lower(x) {
        return Class::Letter;
    }
    match x {
        b'_' => Class::Underscore,
        _ => Class::Other,
    }
}

// The two cases of a letter, which only the worth of a digit in a radix tells apart.
#[tactic(auto, unfolding(rules::specs::Bytes::is_upper, rules::specs::Bytes::ranging))]
pub fn is_upper(x: u8) -> bool
    ensures { result ≡ is_upper x }
{
    matches!(x, b'A'..=b'Z')
}

#[tactic(auto, unfolding(rules::specs::Bytes::is_lower, rules::specs::Bytes::ranging))]
pub fn is_lower(x: u8) -> bool
    ensures { result ≡ is_lower x }
{
    matches!(x, b'a'..=b'z')
}

#[tactic(auto, unfolding(rules::specs::Bytes::is_letter, rules::specs::Bytes::same_class, rules::specs::Bytes::class_number))]
pub fn is_letter(x: u8) -> bool
    ensures { result ≡ is_letter x }
{
    matches!(class_of(x), Class::Letter)
}

#[tactic(auto, unfolding(rules::specs::Bytes::is_digit, rules::specs::Bytes::same_class, rules::specs::Bytes::class_number))]
pub fn is_digit(x: u8) -> bool
    ensures { result ≡ is_digit x }
{
    matches!(class_of(x), Class::Digit)
}

#[tactic(auto, unfolding(rules::specs::Bytes::is_underscore, rules::specs::Bytes::same_class, rules::specs::Bytes::class_number))]
pub fn is_underscore(x: u8) -> bool
    ensures { result ≡ is_underscore x }
{
    matches!(class_of(x), Class::Underscore)
}

// A space, tab or newline.
#[tactic(auto, unfolding(rules::specs::Bytes::is_blank, rules::specs::Bytes::same_class, rules::specs::Bytes::class_number))]
pub fn is_blank(x: u8) -> bool
    ensures { result ≡ is_blank x }
{
    matches!(class_of(x), Class::Blank)
}

#[tactic(auto, unfolding(rules::specs::Bytes::begins_name, rules::specs::Bytes::is_letter, rules::specs::Bytes::is_underscore, rules::specs::Bytes::same_class, rules::specs::Bytes::class_number))]
pub fn begins_name(x: u8) -> bool
    ensures { result ≡ begins_name x }
{
    matches!(class_of(x), Class::Letter | Class::Underscore)
}

#[tactic(auto, unfolding(rules::specs::Bytes::continues_name, rules::specs::Bytes::begins_name, rules::specs::Bytes::is_letter, rules::specs::Bytes::is_underscore, rules::specs::Bytes::is_digit, rules::specs::Bytes::same_class, rules::specs::Bytes::class_number))]
pub fn continues_name(x: u8) -> bool
    ensures { result ≡ continues_name x }
{
    matches!(
        class_of(x),
        Class::Letter | Class::Digit | Class::Underscore
    )
}

// How many bytes at the front go on with a name.
pub fn name_length(s: &[u8]) -> usize
    ensures { result ≡ name_length s.now }
{
    s.iter().take_while(|x| continues_name(**x)).count()
}

// The whole slice is a name.
pub fn is_name(s: &[u8]) -> bool
    ensures { result ≡ is_name s.now }
{
    !s.is_empty() && begins_name(s[0]) && name_length(s) == s.len()
}

// Names are short: with the library's `==` of slices most workloads took 4 to 5 of 100 more instructions, with a zip of the two 1 to 2.
pub fn same(a: &[u8], b: &[u8]) -> bool
    ensures { result ≡ same_bytes a.now b.now }
{
    if a.len() != b.len() {
        return false;
    }
    for i in 0..a.len() {
        if a[i] != b[i] {
            return false;
        }
    }
    true
}

// Copies `from` into a slice of its length; false, and nothing is written, where the lengths differ.
pub fn copy(from: &[u8], into: &mut [u8]) -> bool
    ensures { Copied from.now into.old result into.new }
{
    if from.len() != into.len() {
        return false;
    }
    into.copy_from_slice(from);
    true
}
