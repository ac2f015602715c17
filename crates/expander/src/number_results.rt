// The macros whose result is a number: the number, to be written later, or the answer of the refusal.
ghost use Rattle.std.specs.Prelude.{◌≡◌, true, pos, ◌+ℤ◌, Ok};
ghost use Rattle.rules.specs.Numerals.{decimal};
ghost use Rattle.rules.specs.Results.{changed_number, decr_result, incr_result, divnum_result, eval_result, index_result, len_result, is_unreadable, shown_result};
ghost use Rattle.numerals.specs.Answers.{is_radix};
ghost use Rattle.expander.specs.Arguments.{args_of};
ghost use Rattle.expander.specs.Results.{answered, number_text, read_result};

use crate::argument_strings::Arguments;
use crate::limits::LARGEST;
use crate::numeral::Numeral;
use rules::{Answer, EvalError};

// A number in decimal.
fn decimal(value: i32) -> Numeral
    ensures { number_text (Ok result) ≡ Ok (decimal value) }
{
    Numeral {
        value,
        radix: 10,
        least: 0,
    }
}

// A number with `by` added to it.
fn added(number: Option<i32>, by: i32) -> Result<Numeral, Answer>
    ensures { number_text result ≡ answered (changed_number (λ z. z +ℤ by) number) }
{
    let n = number.ok_or(Answer::Number)?;
    let sum = n.checked_add(by).ok_or(Answer::Number)?;
    Ok(decimal(sum))
}

pub(crate) fn decr(x: Arguments) -> Result<Numeral, Answer>
    ensures { number_text result ≡ answered (decr_result (args_of x.entry)) }
{
    added(x.number(1), -1)
}

pub(crate) fn incr(x: Arguments) -> Result<Numeral, Answer>
    ensures { number_text result ≡ answered (incr_result (args_of x.entry)) }
{
    added(x.number(1), 1)
}

// The number of the current stream.
pub(crate) fn divnum(current: i32) -> Numeral
    ensures { number_text (Ok result) ≡ answered (divnum_result current) }
{
    decimal(current)
}

pub(crate) fn len(x: Arguments) -> Numeral
    ensures { number_text (Ok result) ≡ answered (len_result (args_of x.entry)) }
{
    decimal(x.argument(1).len() as i32)
}

// Where the second argument first stands in the first, or -1. The two have at most 65,536 bytes together, so the search is never too long.
pub(crate) fn index(x: Arguments) -> Numeral
    ensures { number_text (Ok result) ≡ answered (index_result (args_of x.entry)) }
{
    let text = x.argument(1);
    let needle = x.argument(2);
    match matching::first_place(needle, text) {
        Ok(Some(n)) => decimal(n as i32),
        Ok(None) => decimal(-1),
        Err(_) => decimal(-1),
    }
}

// A value in a radix with a least count of digits.
fn shown(value: Result<i32, EvalError>, radix: u32, least: u32) -> Result<Numeral, Answer>
    requires { is_radix radix ≡ true }
    ensures { number_text result ≡ answered (shown_result value radix least) }
{
    match value {
        Ok(value) => Ok(Numeral {
            value,
            radix,
            least,
        }),
        Err(EvalError::Unreadable) => Err(Answer::Expression),
        Err(EvalError::Divisor) => Err(Answer::Divisor),
    }
}

// Whether an expression can't be read.
fn is_unreadable(value: Result<i32, EvalError>) -> bool
    ensures { result ≡ is_unreadable value }
{
    matches!(value, Err(EvalError::Unreadable))
}

// The value of the first argument, an expression, in the radix of the second, with the third as the least count of digits.
pub(crate) fn eval(x: Arguments) -> Result<Numeral, Answer>
    ensures { number_text result ≡ answered (eval_result (args_of x.entry)) }
{
    let value = expression::evaluate(x.argument(1));
    if is_unreadable(value) {
        return Err(Answer::Expression);
    }
    let radix = x.natural_or(2, 10, 2, 36).ok_or(Answer::Number)?;
    let least = x.natural_or(3, 0, 0, LARGEST).ok_or(Answer::Number)?;
    shown(value, radix, least)
}
