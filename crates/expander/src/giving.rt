// Results: what a macro gives goes in front of the text ahead. Each is measured, room 1 is judged, and then it is written just before the
// pending text.
ghost use Rattle.std.specs.Prelude.{◌≡◌, ◌+◌, ◌*◌, ◌≤◌, [], length, slice_index_or};
ghost use Rattle.rules.specs.Numerals.{written_in};
ghost use Rattle.rules.specs.Bytes.{Bytes};
ghost use Rattle.rules.specs.State.{State, next, resulting};
ghost use Rattle.rules.specs.Run.{Setting};
ghost use Rattle.expander.specs.Limits.{most_lent};
ghost use Rattle.expander.specs.Arguments.{args_of};
ghost use Rattle.expander.specs.declared.machine.Machine.{Machine};
ghost use Rattle.expander.specs.Machine.{Memory, Represents, Refines, ValidAt, pending_at, definitions_at, source_set, marks_set, table_set};
ghost use Rattle.expander.specs.Giving.{place_before, pushed_step};
ghost use Rattle.rules.specs.Macros.{giving, call_defn, call_shift, call_translit};
ghost use Rattle.rules.specs.Results.{yields};
ghost use Rattle.rules.specs.Arguments.{substituted};
ghost use Rattle.expander.specs.Table.{rows};

use crate::argument_strings::Arguments;
use crate::numeral::Numeral;
use crate::source::Position;
use crate::table::Definitions;
use crate::{buffers, defn, lists, packed, substitution};
use rules::{Answer, Marks};

// Where n bytes begin that go before the pending text.
pub(crate) fn place_before(p: Position, n: usize) -> Result<usize, Answer>
    ensures { result ≡ place_before p.from n }
{
    p.from.checked_sub(n).ok_or(Answer::Room(1))
}

// A number in a radix. (Its radix is good, so it has a length.)
pub(crate) fn give_number(pending: &mut [u8], p: Position, n: Numeral) -> Result<usize, Answer>
    requires { ValidAt (λ b. pending_at pending.old b) (λ m. source_set p m) }
    ensures { (a : Setting) (s : State) (b : Memory) (m : Machine) → Represents a (pending_at pending.old b) (source_set p m) s → Refines a (pending_at pending.old b) (next (resulting (written_in n.radix n.least n.value) s)) (pending_at pending.new b) (pushed_step (source_set p m) result) }
{
    let length = numerals::written_length(n.value, n.radix, n.least).ok_or(Answer::Number)?;
    let at = place_before(p, length)?;
    numerals::write_number(&mut pending[at..p.from], n.value, n.radix, n.least);
    Ok(at)
}

// A slice.
pub(crate) fn give_slice(pending: &mut [u8], p: Position, s: &[u8]) -> Result<usize, Answer>
    requires { ValidAt (λ b. pending_at pending.old b) (λ m. source_set p m) }
    ensures { (a : Setting) (u : State) (b : Memory) (m : Machine) → Represents a (pending_at pending.old b) (source_set p m) u → Refines a (pending_at pending.old b) (next (resulting s.now u)) (pending_at pending.new b) (pushed_step (source_set p m) result) }
{
    place_before(p, s.len())?;
    Ok(buffers::push(pending, p.from, s))
}

// The arguments behind the first, quoted.
pub(crate) fn give_shift(
    pending: &mut [u8],
    p: Position,
    marks: Marks,
    x: Arguments,
) -> Result<usize, Answer>
    requires valid_at { ValidAt (λ b. pending_at pending.old b) (λ m. source_set p (marks_set marks m)) }
    ensures { (a : Setting) (s : State) (b : Memory) (m : Machine) → Represents a (pending_at pending.old b) (source_set p (marks_set marks m)) s → Refines a (pending_at pending.old b) (call_shift (args_of x.entry) s) (pending_at pending.new b) (pushed_step (source_set p (marks_set marks m)) result) }
{
    let n = lists::list_length(x, 1, marks);
    let at = place_before(p, n)?;
    lists::fill_list(x, 1, marks, b',', pending, at);
    Ok(at)
}

// The first argument with its bytes replaced.
pub(crate) fn give_translit(pending: &mut [u8], p: Position, x: Arguments) -> Result<usize, Answer>
    requires valid_at { ValidAt (λ b. pending_at pending.old b) (λ m. source_set p m) }
    ensures { (a : Setting) (s : State) (b : Memory) (m : Machine) → Represents a (pending_at pending.old b) (source_set p m) s → Refines a (pending_at pending.old b) (call_translit (args_of x.entry) s) (pending_at pending.new b) (pushed_step (source_set p m) result) }
{
    let s = x.argument(1);
    let old = x.argument(2);
    let new = x.argument(3);
    let table = matching::partners_of(old, new);
    let n = matching::translit_length(&table, s);
    let at = place_before(p, n)?;
    matching::translit(&table, s, &mut pending[at..p.from]);
    Ok(at)
}

// The texts that the arguments name, quoted.
pub(crate) fn give_defn(
    pending: &mut [u8],
    definitions: &[u8],
    table_ends: &[u32],
    table: Definitions,
    p: Position,
    marks: Marks,
    x: Arguments,
) -> Result<usize, Answer>
    requires valid_at { ValidAt (λ b. pending_at pending.old (definitions_at definitions.now table_ends.now b)) (λ m. source_set p (marks_set marks (table_set table m))) }
    ensures { (a : Setting) (s : State) (b : Memory) (m : Machine) → Represents a (pending_at pending.old (definitions_at definitions.now table_ends.now b)) (source_set p (marks_set marks (table_set table m))) s → Refines a (pending_at pending.old (definitions_at definitions.now table_ends.now b)) (call_defn (args_of x.entry) s) (pending_at pending.new (definitions_at definitions.now table_ends.now b)) (pushed_step (source_set p (marks_set marks (table_set table m))) result) }
{
    let n = defn::defn_length(x, marks, definitions, table_ends, table)?;
    let at = place_before(p, n)?;
    defn::fill_defn(
        x,
        marks,
        definitions,
        table_ends,
        table,
        &mut pending[at..p.from],
    );
    Ok(at)
}

// The text of the definition at `place`, with the arguments put in.
pub(crate) fn give_text(
    pending: &mut [u8],
    definitions: &[u8],
    table_ends: &[u32],
    table: Definitions,
    p: Position,
    marks: Marks,
    name: &[u8],
    x: Arguments,
    place: usize,
) -> Result<usize, Answer>
    requires valid_at { ValidAt (λ b. pending_at pending.old (definitions_at definitions.now table_ends.now b)) (λ m. source_set p (marks_set marks (table_set table m))) }
    requires name_len_bound { (length name.now ≤ most_lent) × (2 * place + 2 ≤ table.packed.count) }
    ensures { (a : Setting) (s : State) (b : Memory) (m : Machine) → Represents a (pending_at pending.old (definitions_at definitions.now table_ends.now b)) (source_set p (marks_set marks (table_set table m))) s → Refines a (pending_at pending.old (definitions_at definitions.now table_ends.now b)) (giving (yields (substituted name.now (args_of x.entry) s.marks (slice_index_or (rows s.table.definitions) (2 * place + 1) []))) s) (pending_at pending.new (definitions_at definitions.now table_ends.now b)) (pushed_step (source_set p (marks_set marks (table_set table m))) result) }
{
    let k = 2 * place + 1;
    let body = packed::string(definitions, table_ends, table.packed, k);
    let n = substitution::substituted_length(name, x, marks, body);
    let at = place_before(p, n)?;
    substitution::fill_substituted(name, x, marks, body, &mut pending[at..p.from]);
    Ok(at)
}
