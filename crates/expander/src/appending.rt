// The macros that append text to a buffer: error text and wrap text.
ghost use Rattle.std.specs.Prelude.{List};
ghost use Rattle.rules.specs.Bytes.{Bytes};
ghost use Rattle.rules.specs.State.{State};
ghost use Rattle.rules.specs.Run.{Setting};
ghost use Rattle.expander.specs.Arguments.{args_of};
ghost use Rattle.expander.specs.Machine.{Memory, Represents, Refines, Valid, strings_at, wrap_at, errors_at};
ghost use Rattle.rules.specs.Macros.{call_errprint, call_m4wrap};

use crate::argument_strings::Arguments;
use crate::machine::{Machine, Stepped};
use crate::{buffers, lists};
use rules::Answer;

// errprint: the arguments, joined with a space, go behind the error text.
pub(crate) fn errprint(errors: &mut [u8], m: Machine, x: Arguments) -> Stepped
    requires valid { Valid (λ b. errors_at errors.old b) m }
    ensures { (a : Setting) (s : State) (b : Memory) → Represents a (errors_at errors.old b) m s → Refines a (errors_at errors.old b) (call_errprint (args_of x.entry) s) (errors_at errors.new b) result }
{
    let marks = lists::bare_marks();
    let at = m.errors;
    let n = lists::list_length(x, 0, marks);
    if errors.len() - at < n {
        return m.refused(Answer::Room(6));
    }
    lists::fill_list(x, 0, marks, b' ', errors, at);
    let all = at + n;
    m.with_errors(all).on()
}

// m4wrap: the first argument goes behind the wrap text.
pub(crate) fn m4wrap(wrap: &mut [u8], m: Machine, x: Arguments) -> Stepped
    requires valid { Valid (λ b. wrap_at wrap.old b) m }
    ensures { (a : Setting) (s : State) (b : Memory) → Represents a (wrap_at wrap.old b) m s → Refines a (wrap_at wrap.old b) (call_m4wrap (args_of x.entry) s) (wrap_at wrap.new b) result }
{
    let at = m.wrap;
    let s = x.argument(1);
    if wrap.len() - at < s.len() {
        return m.refused(Answer::Room(5));
    }
    buffers::fill_slice(s, wrap, at);
    let all = at + s.len();
    m.with_wrap(all).on()
}
