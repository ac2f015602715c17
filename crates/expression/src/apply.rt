// What the operators of eval come to.
ghost use Rattle.std.specs.Prelude.{◌≡◌, ◌<◌, IfSome};
ghost use Rattle.rules.specs.Words.{truth};
ghost use Rattle.rules.specs.Operators.{unary_applied, shift_count, both_applied, truth_of, applied};

use rules::{Binary, Strict, Unary};

// Truth is 1 or 0.
#[tactic(auto, unfolding(rules::specs::Words::truth))]
fn truth(t: bool) -> i32
    ensures { result ≡ truth t }
{
    i32::from(t)
}

#[tactic(auto, using(crate::proofs::Signed::numbers), unfolding(rules::specs::Operators::unary_applied))]
pub(crate) fn apply_unary(u: Unary, value: Option<i32>) -> Option<i32>
    ensures { result ≡ unary_applied u value }
{
    let x = value?;
    match u {
        Unary::Minus => Some(x.wrapping_neg()),
        Unary::Plus => Some(x),
        Unary::Not => Some(truth(x == 0)),
        Unary::Complement => Some(!x),
    }
}

// A shift count within 0 to 31.
#[tactic(auto, unfolding(rules::specs::Operators::shift_count))]
fn shift_count(y: i32) -> Option<u32>
    ensures is { result ≡ shift_count y }
    ensures within { IfSome result (λ n. n < 32) }
{
    if 0 <= y && y < 32 {
        Some(y as u32)
    } else {
        None
    }
}

// Both sides are worked out.
#[tactic(auto, using(crate::proofs::Signed::numbers), unfolding(rules::specs::Operators::both_applied))]
fn apply_both(o: Strict, x: i32, y: i32) -> Option<i32>
    ensures { result ≡ both_applied o x y }
{
    match o {
        Strict::Mul => Some(x.wrapping_mul(y)),
        Strict::Div => if y == 0 {
            None
        } else {
            Some(x.wrapping_div(y))
        },
        Strict::Rem => if y == 0 {
            None
        } else {
            Some(x.wrapping_rem(y))
        },
        Strict::Add => Some(x.wrapping_add(y)),
        Strict::Sub => Some(x.wrapping_sub(y)),
        Strict::Shl => Some(x << shift_count(y)?),
        Strict::Shr => Some(x >> shift_count(y)?),
        Strict::Lt => Some(truth(x < y)),
        Strict::Le => Some(truth(x <= y)),
        Strict::Gt => Some(truth(x > y)),
        Strict::Ge => Some(truth(x >= y)),
        Strict::Eq => Some(truth(x == y)),
        Strict::Ne => Some(truth(x != y)),
        Strict::BitAnd => Some(x & y),
        Strict::BitXor => Some(x ^ y),
        Strict::BitOr => Some(x | y),
    }
}

#[tactic(auto, unfolding(rules::specs::Operators::truth_of))]
fn truth_of(value: Option<i32>) -> Option<i32>
    ensures { result ≡ truth_of value }
{
    let x = value?;
    Some(truth(x != 0))
}

// The side that `&&` or `||` skips does not matter.
#[tactic(auto, unfolding(rules::specs::Operators::applied, rules::specs::Operators::applied_to, rules::specs::Operators::strict_applied))]
pub(crate) fn apply(op: Binary, left: Option<i32>, right: Option<i32>) -> Option<i32>
    ensures { result ≡ applied op left right }
{
    let x = left?;
    match op {
        Binary::And => if x == 0 { Some(0) } else { truth_of(right) },
        Binary::Or => if x == 0 { truth_of(right) } else { Some(1) },
        Binary::Strict(o) => apply_both(o, x, right?),
    }
}
