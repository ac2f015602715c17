// Contents of the set: the first item with the name that the first argument gives, in front of the text ahead.
ghost use Rattle.std.specs.Prelude.{◌≡◌, List, length as size, Some};
ghost use Rattle.rules.specs.Bytes.{Bytes};
ghost use Rattle.rules.specs.State.{State, next, resulting};
ghost use Rattle.rules.specs.Run.{Setting};
ghost use Rattle.rules.specs.Results.{contents_or};
ghost use Rattle.rules.specs.Macros.{giving};
ghost use Rattle.container.specs.Items.{text_at};
ghost use Rattle.expander.specs.Results.{unknown};
ghost use Rattle.expander.specs.Arguments.{args_of};
ghost use Rattle.expander.specs.declared.machine.Machine.{Machine};
ghost use Rattle.expander.specs.Machine.{Memory, Represents, Refines, ValidAt, set_at, pending_at, source_set};
ghost use Rattle.expander.specs.Giving.{pushed_step};

use crate::argument_strings::Arguments;
use crate::giving;
use crate::source::Position;
use rules::Answer;

// The text of the item at a place, which has this length.
fn give_item(
    set: &[u8],
    pending: &mut [u8],
    p: Position,
    place: usize,
    length: usize,
) -> Result<usize, Answer>
    requires { ValidAt (λ b. pending_at pending.old b) (λ m. source_set p m) }
    ensures { (a : Setting) (s : State) (b : Memory) (m : Machine) (w : Bytes) → Represents a (pending_at pending.old b) (source_set p m) s → text_at set.now place ≡ Some w → length ≡ size w → Refines a (pending_at pending.old b) (next (resulting w s)) (pending_at pending.new b) (pushed_step (source_set p m) result) }
{
    let at = giving::place_before(p, length)?;
    container::copy_text(set, place, &mut pending[at..p.from]);
    Ok(at)
}

// The contents of the item; where there is none, nothing, or a refusal if they are needed.
pub(crate) fn give_contents(
    set: &[u8],
    pending: &mut [u8],
    p: Position,
    x: Arguments,
    needed: bool,
) -> Result<usize, Answer>
    requires valid_at { ValidAt (λ b. set_at set.now (pending_at pending.old b)) (λ m. source_set p m) }
    ensures { (a : Setting) (s : State) (b : Memory) (m : Machine) → Represents a (set_at set.now (pending_at pending.old b)) (source_set p m) s → Refines a (set_at set.now (pending_at pending.old b)) (giving (contents_or (unknown needed) s.set (args_of x.entry)) s) (set_at set.now (pending_at pending.new b)) (pushed_step (source_set p m) result) }
{
    let name = x.argument(1);
    match container::find(set, name) {
        Some(found) => give_item(set, pending, p, found.place, found.length),
        None if needed => Err(Answer::NoItem),
        None => Ok(p.from),
    }
}
