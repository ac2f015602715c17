// The macros that change the definitions.
ghost use Rattle.std.specs.Prelude.{◌+◌, ◌*◌, ◌^◌, ◌<◌, ◌≤◌, List, [], length, slice_index_or};
ghost use Rattle.rules.specs.Bytes.{Bytes};
ghost use Rattle.rules.specs.State.{State, next, with_table};
ghost use Rattle.rules.specs.Table.{Table, text, defined, in_turn};
ghost use Rattle.rules.specs.Run.{Setting};
ghost use Rattle.expander.specs.Arguments.{args_of};
ghost use Rattle.expander.specs.Machine.{Memory, Represents, Refines, Valid, definitions_at};
ghost use Rattle.expander.specs.Table.{rows, meaning_text, Numbered, new_meaning, ValidDefinitions, Changes};
ghost use Rattle.expander.specs.Limits.{most_lent};
ghost use Rattle.expander.specs.declared.table.Definitions.{Definitions};
ghost use Rattle.rules.specs.Macros.{call_define, call_popdef, call_pushdef, call_undefine, call_copydef};

use crate::argument_strings::Arguments;
use crate::machine::{Machine, Stepped};
use crate::table::{Definitions, Meaning, NewMeaning};
use crate::{packed, table};
use rules::Answer;

// A name gets a meaning, as define sets it.
fn set_meaning(
    definitions: &mut [u8],
    table_ends: &mut [u32],
    m: Machine,
    name: &[u8],
    new: NewMeaning,
) -> Stepped
    requires valid { Valid (λ b. definitions_at definitions.old table_ends.old b) m }
    requires name_nonzero { (0 < length name.now) × (length name.now + length (meaning_text (new_meaning new)) < 2 ^ 32) }
    ensures { (a : Setting) (s : State) (b : Memory) → Numbered (new_meaning new.entry) → Represents a (definitions_at definitions.old table_ends.old b) m s → Refines a (definitions_at definitions.old table_ends.old b) (next (with_table (defined name.now (new_meaning new.entry) s.table) s)) (definitions_at definitions.new table_ends.new b) result }
{
    let p = m.table.packed;
    let place = table::newest(definitions, table_ends, p, name);
    let size = table::size_defined(definitions, table_ends, p, place, name, new.text().len());
    if definitions.len() < size {
        return m.refused(Answer::Room(3));
    }
    let t = m.table.define_at(definitions, table_ends, place, name, new);
    m.with_table(t).on()
}

// A name gets the text of definition i, as define sets it. (The text stands in the buffer that is written, so `set_meaning` can't be lent it.)
fn copy_text(
    definitions: &mut [u8],
    table_ends: &mut [u32],
    m: Machine,
    name: &[u8],
    i: usize,
) -> Stepped
    requires valid { Valid (λ b. definitions_at definitions.old table_ends.old b) m }
    requires name_nonzero { (0 < length name.now) × (length name.now ≤ most_lent) × (2 * i + 1 < m.table.packed.count) }
    ensures { (a : Setting) (s : State) (b : Memory) → Represents a (definitions_at definitions.old table_ends.old b) m s → Refines a (definitions_at definitions.old table_ends.old b) (next (with_table (defined name.now (text (slice_index_or (rows s.table.definitions) (2 * i + 1) [])) s.table) s)) (definitions_at definitions.new table_ends.new b) result }
{
    let p = m.table.packed;
    let k = 2 * i + 1;
    let n = packed::string(definitions, table_ends, p, k).len();
    let place = table::newest(definitions, table_ends, p, name);
    let size = table::size_defined(definitions, table_ends, p, place, name, n);
    if definitions.len() < size {
        return m.refused(Answer::Room(3));
    }
    let t = m.table.copy_at(definitions, table_ends, place, name, i);
    m.with_table(t).on()
}

// define: the newest definition of the name is replaced.
pub(crate) fn define(
    definitions: &mut [u8],
    table_ends: &mut [u32],
    m: Machine,
    x: Arguments,
) -> Stepped
    requires valid { Valid (λ b. definitions_at definitions.old table_ends.old b) m }
    ensures { (a : Setting) (s : State) (b : Memory) → Represents a (definitions_at definitions.old table_ends.old b) m s → Refines a (definitions_at definitions.old table_ends.old b) (call_define (args_of x.entry) s) (definitions_at definitions.new table_ends.new b) result }
{
    let name = x.argument(1);
    let body = x.argument(2);
    if !ascii::is_name(name) {
        return m.refused(Answer::Name);
    }
    set_meaning(definitions, table_ends, m, name, NewMeaning::Text(body))
}

// copydef: the second argument gets the meaning of the first.
pub(crate) fn copydef(
    definitions: &mut [u8],
    table_ends: &mut [u32],
    m: Machine,
    x: Arguments,
) -> Stepped
    requires valid { Valid (λ b. definitions_at definitions.old table_ends.old b) m }
    ensures { (a : Setting) (s : State) (b : Memory) → Represents a (definitions_at definitions.old table_ends.old b) m s → Refines a (definitions_at definitions.old table_ends.old b) (call_copydef (args_of x.entry) s) (definitions_at definitions.new table_ends.new b) result }
{
    let source = x.argument(1);
    let name = x.argument(2);
    if !ascii::is_name(name) {
        return m.refused(Answer::Name);
    }
    let p = m.table.packed;
    let own = m.table.own;
    let meaning = table::look_up(definitions, table_ends, p, own, source);
    match meaning {
        Meaning::Text(i) => copy_text(definitions, table_ends, m, name, i),
        Meaning::Predefined(k) => {
            set_meaning(definitions, table_ends, m, name, NewMeaning::Predefined(k))
        }
        Meaning::Undefined => m.refused(Answer::NoDefinition),
    }
}

// pushdef: the new definition arrives last. (Only the test of the name is as in define; a function of both would be longer than what it saves, by its
// clause for the step that follows.)
pub(crate) fn pushdef(
    definitions: &mut [u8],
    table_ends: &mut [u32],
    m: Machine,
    x: Arguments,
) -> Stepped
    requires valid { Valid (λ b. definitions_at definitions.old table_ends.old b) m }
    ensures { (a : Setting) (s : State) (b : Memory) → Represents a (definitions_at definitions.old table_ends.old b) m s → Refines a (definitions_at definitions.old table_ends.old b) (call_pushdef (args_of x.entry) s) (definitions_at definitions.new table_ends.new b) result }
{
    let name = x.argument(1);
    let body = x.argument(2);
    if !ascii::is_name(name) {
        return m.refused(Answer::Name);
    }
    let p = m.table.packed;
    let size = name.len() + body.len();
    if definitions.len() - p.used < size {
        return m.refused(Answer::Room(3));
    }
    let t = m
        .table
        .push(definitions, table_ends, name, NewMeaning::Text(body));
    m.with_table(t).on()
}

// Each argument changes the definitions in turn.
fn in_turn<F>(
    definitions: &mut [u8],
    table_ends: &mut [u32],
    m: Machine,
    x: Arguments,
    change: F,
) -> Stepped
where
    F: Fn(Definitions, &mut [u8], &mut [u32], &[u8]) -> Definitions,
    requires valid { Valid (λ b. definitions_at definitions.old table_ends.old b) m }
    requires may_change { (d : Definitions) (p : _) (e : _) (w : _) → ValidDefinitions p.now e.now d.packed → F.pre change d p e w }
    requires changes { (f : Bytes → Table → Table) × Changes (F.post change) f }
    ensures { (f : Bytes → Table → Table) → Changes (F.post change) f → (a : Setting) (s : State) (b : Memory) → Represents a (definitions_at definitions.old table_ends.old b) m s → Refines a (definitions_at definitions.old table_ends.old b) (next (with_table (in_turn f (args_of x.entry) s.table) s)) (definitions_at definitions.new table_ends.new b) result }
{
    let mut t = m.table;
    for k in 0..x.count() {
        let name = x.argument(k + 1);
        t = change(t, definitions, table_ends, name);
    }
    m.with_table(t).on()
}

// popdef: each argument's newest definition goes, or else its own meaning.
pub(crate) fn popdef(
    definitions: &mut [u8],
    table_ends: &mut [u32],
    m: Machine,
    x: Arguments,
) -> Stepped
    requires valid { Valid (λ b. definitions_at definitions.old table_ends.old b) m }
    ensures { (a : Setting) (s : State) (b : Memory) → Represents a (definitions_at definitions.old table_ends.old b) m s → Refines a (definitions_at definitions.old table_ends.old b) (call_popdef (args_of x.entry) s) (definitions_at definitions.new table_ends.new b) result }
{
    in_turn(definitions, table_ends, m, x, Definitions::pop)
}

// undefine: all definitions of each argument go, and its own meaning.
pub(crate) fn undefine(
    definitions: &mut [u8],
    table_ends: &mut [u32],
    m: Machine,
    x: Arguments,
) -> Stepped
    requires valid { Valid (λ b. definitions_at definitions.old table_ends.old b) m }
    ensures { (a : Setting) (s : State) (b : Memory) → Represents a (definitions_at definitions.old table_ends.old b) m s → Refines a (definitions_at definitions.old table_ends.old b) (call_undefine (args_of x.entry) s) (definitions_at definitions.new table_ends.new b) result }
{
    in_turn(definitions, table_ends, m, x, Definitions::undefine)
}
