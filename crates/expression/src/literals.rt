// Literals: decimal, octal or hexadecimal.
ghost use Rattle.std.specs.Prelude.{◌≡◌, ◌≤◌, length, IfSome};
ghost use Rattle.rules.specs.Numerals.{up_to};
ghost use Rattle.rules.specs.Expression.{behind_zero, literal, literal_at};
ghost use Rattle.rules.specs.Words.{largest_bits};

use numerals::read_natural;
use rules::Part;

// What stands behind a literal's first digit, 0.
fn behind_zero(rest: &[u8]) -> Option<u32>
    ensures { result ≡ up_to largest_bits (behind_zero rest.now) }
{
    match rest {
        [] => Some(0),
        [b'x' | b'X', digits @ ..] => read_natural(digits, 16),
        _ => read_natural(rest, 8),
    }
}

fn literal(token: &[u8]) -> Option<u32>
    ensures { result ≡ literal token.now }
{
    match token {
        [] => None,
        [b'0', rest @ ..] => behind_zero(rest),
        _ => read_natural(token, 10),
    }
}

// The literal at a place: its token is all letters, digits and underscores there.
#[tactic(auto, unfolding(rules::specs::Expression::literal_at, rules::specs::Expression::literal_read))]
pub(crate) fn literal_at(s: &[u8], at: usize) -> Option<Part>
    requires { at ≤ length s.now }
    ensures is { result ≡ literal_at s.now at }
    ensures within { IfSome result (λ p. p.end ≤ length s.now) }
{
    let end = at + ascii::name_length(&s[at..]);
    let n = literal(&s[at..end])?;
    Some(Part {
        value: Some(n.cast_signed()),
        end,
    })
}
