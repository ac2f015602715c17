// The macros that change the marks.
ghost use Rattle.std.specs.Prelude.{◌≡◌, ◌&&◌, List};
ghost use Rattle.rules.specs.Marks.{is_mark, is_end_mark, with_quotes, with_comments};
ghost use Rattle.expander.specs.Tokens.{GoodMarks};
ghost use Rattle.rules.specs.Bytes.{Bytes};
ghost use Rattle.rules.specs.State.{State};
ghost use Rattle.rules.specs.Run.{Setting};
ghost use Rattle.expander.specs.Arguments.{args_of, second_or};
ghost use Rattle.expander.specs.Machine.{Memory, Represents, Refines, Valid, strings_at};
ghost use Rattle.rules.specs.Macros.{marking, call_changecom, call_changequote};

use crate::argument_strings::Arguments;
use crate::machine::{Machine, Stepped};
use crate::marks;
use rules::Answer;

// A good begin mark and a good end mark.
fn are_marks(begin: &[u8], end: &[u8]) -> bool
    ensures { result ≡ is_mark begin.now && is_end_mark end.now }
{
    if marks::is_mark(begin) {
        return marks::is_end_mark(end);
    }
    false
}

// The end mark of a call that gives a begin mark: the second argument, or a newline where there is one argument.
fn end_mark<'a>(x: Arguments<'a>, newline: &'a [u8]) -> &'a [u8]
    ensures { result.now ≡ second_or newline.now (args_of x.entry) }
{
    if x.count() == 1 {
        return newline;
    }
    x.argument(2)
}

// New comment marks, if they are good.
fn change_comments(m: Machine, begin: &[u8], end: &[u8]) -> Stepped
    requires { GoodMarks m.marks }
    ensures { (a : Setting) (s : State) (b : Memory) → Represents a b m s → Refines a b (marking with_comments begin.now end.now s) b result }
{
    if !are_marks(begin, end) {
        return m.refused(Answer::Mark);
    }
    m.with_comments(marks::mark_of(begin), marks::mark_of(end))
        .on()
}

// New quote marks, if they are good.
fn change_quotes(m: Machine, begin: &[u8], end: &[u8]) -> Stepped
    requires { GoodMarks m.marks }
    ensures { (a : Setting) (s : State) (b : Memory) → Represents a b m s → Refines a b (marking with_quotes begin.now end.now s) b result }
{
    if !are_marks(begin, end) {
        return m.refused(Answer::Mark);
    }
    m.with_quotes(marks::mark_of(begin), marks::mark_of(end))
        .on()
}

// changecom: without arguments comments are turned off; with one, a newline ends them.
pub(crate) fn changecom(m: Machine, x: Arguments) -> Stepped
    requires valid { Valid (λ b. b) m }
    ensures { (a : Setting) (s : State) (b : Memory) → Represents a b m s → Refines a b (call_changecom (args_of x.entry) s) b result }
{
    if x.count() == 0 {
        return m.without_comments().on();
    }
    let begin = x.argument(1);
    let end = end_mark(x, b"\n");
    change_comments(m, begin, end)
}

// changequote: without arguments the marks are the default ones; with one, a newline ends a quote.
pub(crate) fn changequote(m: Machine, x: Arguments) -> Stepped
    requires valid { Valid (λ b. b) m }
    ensures { (a : Setting) (s : State) (b : Memory) → Represents a b m s → Refines a b (call_changequote (args_of x.entry) s) b result }
{
    if x.count() == 0 {
        return m.with_default_quotes().on();
    }
    let begin = x.argument(1);
    let end = end_mark(x, b"\n");
    change_quotes(m, begin, end)
}
