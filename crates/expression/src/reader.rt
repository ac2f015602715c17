// The readers: operand and expression call each other, and the bytes that remain fall.
ghost use Rattle.std.specs.Prelude.{◌≡◌, ◌+◌, ◌*◌, ◌<◌, ◌≤◌, length, Some, IfSome};
ghost use Rattle.rules.specs.Expression.{closed_by, operand_at, expression_at};

use crate::{apply, literals, tokens};
use rules::{Leading, Part};

// What was read behind an opening parenthesis that ends at n must be closed. As a call it would cost nested operands 7 % more
// instructions.
#[inline(always)]
#[tactic(auto, unfolding(rules::specs::Expression::closed_by))]
fn closed(s: &[u8], n: usize, r: Part) -> Option<Part>
    requires { n + r.end ≤ length s.now }
    ensures is { result ≡ closed_by s.now n (Some r) }
    ensures within { IfSome result (λ p. p.end ≤ length s.now) }
{
    let p = tokens::past_blanks(s, n + r.end);
    if tokens::byte_at(s, p) == b')' {
        Some(Part {
            value: r.value,
            end: p + 1,
        })
    } else {
        None
    }
}

// The operand at the front: `left` more parentheses and unary operators may enclose a literal. The definition bounds its
// calls by a number, and gives the same at each that is large enough.
#[cycle(expression_operand)]
#[tactic(auto, using(crate::proofs::Chains::operand_is), unfolding(rules::specs::Expression::operand_by, rules::specs::Expression::closed_by, rules::specs::Expression::signed_by))]
fn operand(s: &[u8], left: u32) -> Option<Part>
    ensures is { result ≡ operand_at (2 * length s.now + 1) s.now left }
    ensures within { IfSome result (λ p. p.end ≤ length s.now) }
{
    match tokens::leading(s)? {
        Leading::Literal(at) => literals::literal_at(s, at),
        Leading::Parenthesis(n) => {
            let fewer = left.checked_sub(1)?;
            let r = expression(&s[n..], 1, fewer)?;
            closed(s, n, r)
        }
        Leading::Sign(u, n) => {
            let fewer = left.checked_sub(1)?;
            let r = operand(&s[n..], fewer)?;
            Some(Part {
                value: apply::apply_unary(u, r.value),
                end: n + r.end,
            })
        }
    }
}

// The expression at the front, of operators of a level or a higher one, from left to right.
#[cycle(expression_operand)]
#[tactic(auto, using(crate::proofs::Chains::chains))]
pub(crate) fn expression(s: &[u8], level: u32, left: u32) -> Option<Part>
    requires { 0 < level }
    ensures is { result ≡ expression_at (2 * length s.now + 2) s.now level left }
    ensures within { IfSome result (λ p. p.end ≤ length s.now) }
{
    let mut read = operand(s, left)?;
    while let Some(o) = tokens::operator_at(s, read.end, level) {
        let right = expression(&s[o.end..], o.level + 1, left)?;
        read = Part {
            value: apply::apply(o.op, read.value, right.value),
            end: o.end + right.end,
        };
    }
    Some(read)
}
