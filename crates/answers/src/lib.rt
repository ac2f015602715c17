// The numbers of an answer, as 01's table has them.
#![tactic(auto)]

ghost use Rattle.std.specs.Prelude.{◌≡◌};
ghost use Rattle.rules.specs.Answers.{answer_number, answer_detail, numbers};

use rules::{Answer, Report};

// The column "No." of 01's table of answers. (`as` would number only an enum without details.)
#[tactic(auto, unfolding(rules::specs::Answers::answer_number))]
pub fn number_of(a: Answer) -> u32
    ensures { result ≡ answer_number a }
{
    match a {
        Answer::Done => 0,
        Answer::Exit(_) => 1,
        Answer::Lend => 2,
        Answer::Spent => 3,
        Answer::Room(_) => 4,
        Answer::Unclosed(_) => 5,
        Answer::Name => 6,
        Answer::Number => 7,
        Answer::Expression => 8,
        Answer::Divisor => 9,
        Answer::Mark => 10,
        Answer::NoText => 11,
        Answer::Gone => 12,
        Answer::Deep => 13,
        Answer::BadSet => 14,
        Answer::NoItem => 15,
        Answer::NoDefinition => 16,
    }
}

// The column "Detail".
#[tactic(auto, unfolding(rules::specs::Answers::answer_detail))]
pub fn detail_of(a: Answer) -> u32
    ensures { result ≡ answer_detail a }
{
    match a {
        Answer::Exit(detail) | Answer::Room(detail) | Answer::Unclosed(detail) => detail,
        _ => 0,
    }
}

// All six: number, detail, completed steps, place, count of output bytes and count of error bytes.
#[tactic(auto, unfolding(rules::specs::Answers::numbers))]
pub fn numbers_of(r: Report) -> [u32; 6]
    ensures { result ≡ numbers r }
{
    let answer = r.answer;
    [
        number_of(answer),
        detail_of(answer),
        r.steps,
        r.place,
        r.output,
        r.errors,
    ]
}
