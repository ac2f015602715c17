// The tokens of an expression but literals: blanks, what an operand begins with, and binary operators.
ghost use Rattle.std.specs.Prelude.{◌≡◌, ◌+◌, ◌<◌, ◌≤◌, length, slice_index, IfSome};
ghost use Rattle.rules.specs.Operators.{operator, strict, operator_of};
ghost use Rattle.rules.specs.Expression.{past_blanks, leading_of, leading_at, operator_at};
ghost use Rattle.expression.specs.Places.{LeadingWithin};

use rules::{Binary, Leading, Operator, Strict, Unary};

// A byte behind the end reads as 0, which begins no token.
pub(crate) fn byte_at(s: &[u8], i: usize) -> u8
    ensures { result ≡ slice_index s.now i }
{
    s.get(i).copied().unwrap_or(0)
}

// The place behind the blanks at a place.
pub(crate) fn past_blanks(s: &[u8], at: usize) -> usize
    requires { at ≤ length s.now }
    ensures is { result ≡ past_blanks s.now at }
    ensures within { (at ≤ result) × (result ≤ length s.now) }
{
    at + s[at..].iter().take_while(|x| ascii::is_blank(**x)).count()
}

// What the bytes b and c begin, at a place with the next one: ++ and -- are no unary operators.
#[tactic(auto, unfolding(rules::specs::Expression::leading_of))]
fn leading_of(b: u8, c: u8, at: usize, next: usize) -> Option<Leading>
    requires { next ≡ at + 1 }
    ensures { result ≡ leading_of b c at }
{
    match (b, c) {
        (b'(', _) => Some(Leading::Parenthesis(next)),
        (b'!', _) => Some(Leading::Sign(Unary::Not, next)),
        (b'~', _) => Some(Leading::Sign(Unary::Complement, next)),
        (b'+', b'+') | (b'-', b'-') => None,
        (b'+', _) => Some(Leading::Sign(Unary::Plus, next)),
        (b'-', _) => Some(Leading::Sign(Unary::Minus, next)),
        _ if ascii::is_digit(b) => Some(Leading::Literal(at)),
        _ => None,
    }
}

// What the operand at the front begins with.
#[tactic(auto, unfolding(rules::specs::Expression::leading_at))]
pub(crate) fn leading(s: &[u8]) -> Option<Leading>
    ensures is { result ≡ leading_at s.now (past_blanks s.now 0) }
    ensures within { LeadingWithin (length s.now) result }
{
    let p = past_blanks(s, 0);
    let next = p + 1;
    leading_of(byte_at(s, p), byte_at(s, next), p, next)
}

// An operator with its level and how long its token is.
fn operator(op: Binary, level: u32, end: usize) -> Option<Operator>
    ensures { result ≡ operator op level end }
{
    Some(Operator { op, level, end })
}

// One that works out both sides.
fn strict(o: Strict, level: u32, end: usize) -> Option<Operator>
    ensures { result ≡ strict o level end }
{
    operator(Binary::Strict(o), level, end)
}

// The operator that the bytes b and c begin.
#[tactic(auto, unfolding(rules::specs::Operators::operator_of))]
fn operator_of(b: u8, c: u8) -> Option<Operator>
    ensures { result ≡ operator_of b c }
{
    match (b, c) {
        (b'*', _) => strict(Strict::Mul, 10, 1),
        (b'/', _) => strict(Strict::Div, 10, 1),
        (b'%', _) => strict(Strict::Rem, 10, 1),
        (b'+', b'+') | (b'-', b'-') => None,
        (b'+', _) => strict(Strict::Add, 9, 1),
        (b'-', _) => strict(Strict::Sub, 9, 1),
        (b'<', b'<') => strict(Strict::Shl, 8, 2),
        (b'>', b'>') => strict(Strict::Shr, 8, 2),
        (b'<', b'=') => strict(Strict::Le, 7, 2),
        (b'<', _) => strict(Strict::Lt, 7, 1),
        (b'>', b'=') => strict(Strict::Ge, 7, 2),
        (b'>', _) => strict(Strict::Gt, 7, 1),
        (b'=', b'=') => strict(Strict::Eq, 6, 2),
        (b'!', b'=') => strict(Strict::Ne, 6, 2),
        (b'&', b'&') => operator(Binary::And, 2, 2),
        (b'&', _) => strict(Strict::BitAnd, 5, 1),
        (b'^', _) => strict(Strict::BitXor, 4, 1),
        (b'|', b'|') => operator(Binary::Or, 1, 2),
        (b'|', _) => strict(Strict::BitOr, 3, 1),
        _ => None,
    }
}

// The operator of at least a level behind the blanks at a place.
#[tactic(auto, unfolding(rules::specs::Expression::operator_at, rules::specs::Expression::binding))]
pub(crate) fn operator_at(s: &[u8], at: usize, level: u32) -> Option<Operator>
    requires { at ≤ length s.now }
    ensures is { result ≡ operator_at s.now at level }
    ensures within { IfSome result (λ o. (at < o.end) × (o.end ≤ length s.now) × (level ≤ o.level) × (o.level ≤ 10)) }
{
    let p = past_blanks(s, at);
    let o = operator_of(byte_at(s, p), byte_at(s, p + 1))?;
    if o.level < level {
        return None;
    }
    Some(Operator {
        op: o.op,
        level: o.level,
        end: p + o.end,
    })
}
