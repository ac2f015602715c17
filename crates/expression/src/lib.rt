// eval's expressions: what the bytes of one come to.
#![tactic(auto)]

ghost use Rattle.std.specs.Prelude.{◌≡◌};
ghost use Rattle.rules.specs.Expression.{evaluation};

mod apply;
mod literals;
mod reader;
mod tokens;

use rules::EvalError;

// The whole text: its number, or why it has none. At most 33 * 11 calls of `expression` and 33 of `operand` are open at
// once: 32 enclosings, and the levels 1 to 11 in each.
#[tactic(auto, unfolding(rules::specs::Expression::evaluation, rules::specs::Expression::wholly))]
pub fn evaluate(s: &[u8]) -> Result<i32, EvalError>
    ensures { result ≡ evaluation s.now }
{
    let whole = reader::expression(s, 1, 32).ok_or(EvalError::Unreadable)?;
    if tokens::past_blanks(s, whole.end) < s.len() {
        return Err(EvalError::Unreadable);
    }
    whole.value.ok_or(EvalError::Divisor)
}
