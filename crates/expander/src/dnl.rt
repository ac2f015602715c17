// The macro that drops text ahead.
ghost use Rattle.std.specs.Prelude.{List};
ghost use Rattle.rules.specs.Bytes.{Bytes};
ghost use Rattle.rules.specs.State.{State};
ghost use Rattle.rules.specs.Run.{Setting};
ghost use Rattle.expander.specs.Machine.{Memory, Represents, Refines, Valid, text_at, pending_at};
ghost use Rattle.rules.specs.Macros.{call_dnl};

use crate::machine::{Machine, Stepped};

// dnl: the text ahead through the next newline is dropped.
pub(crate) fn dnl(text: &[u8], pending: &[u8], m: Machine) -> Stepped
    requires { Valid (λ b. text_at text.now (pending_at pending.now b)) m }
    ensures { (a : Setting) (s : State) (b : Memory) (args : List Bytes) → Represents a (text_at text.now (pending_at pending.now b)) m s → Refines a (text_at text.now (pending_at pending.now b)) (call_dnl args s) (text_at text.now (pending_at pending.now b)) result }
{
    let p = m.source;
    let n = p.ahead(text, pending).line_length();
    let to = p.advanced(pending, n);
    m.with_source(to).on()
}
