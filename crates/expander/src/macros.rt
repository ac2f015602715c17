// The predefined macros: the function for each.
ghost use Rattle.std.specs.Prelude.{◌≡◌, ◌<◌, List, length};
ghost use Rattle.rules.specs.Bytes.{Bytes};
ghost use Rattle.rules.specs.State.{State};
ghost use Rattle.rules.specs.Run.{Setting};
ghost use Rattle.expander.specs.Limits.{most_lent};
ghost use Rattle.expander.specs.Arguments.{args_of};
ghost use Rattle.expander.specs.Machine.{Memory, Represents, Refines, Valid, ValidAt, input_at, pending_at, definitions_at, sinks_at, wrap_at, errors_at, source_set, marks_set, table_set};
ghost use Rattle.expander.specs.declared.machine.Machine.{Machine};
ghost use Rattle.expander.specs.Giving.{pushed_step};
ghost use Rattle.rules.specs.Macros.{call_index};
ghost use Rattle.builtins.specs.Builtins.{builtin_at, result_of, change_of, result_call, change_call};

use crate::argument_strings::Arguments;
use crate::machine::{Machine, Stepped};
use crate::source::Position;
use crate::table::Definitions;
use crate::{
    appending, change_marks, defining, diverting, dnl, giving, including, number_results,
    part_results,
};
use builtins::{ChangeMacro, ResultMacro};
use rules::{Answer, Marks};

// Those that only give a result.
pub(crate) fn give(
    pending: &mut [u8],
    definitions: &[u8],
    table_ends: &[u32],
    table: Definitions,
    p: Position,
    marks: Marks,
    x: Arguments,
    number: u8,
) -> Result<usize, Answer>
    requires valid_at { ValidAt (λ b. pending_at pending.old (definitions_at definitions.now table_ends.now b)) (λ m. source_set p (marks_set marks (table_set table m))) }
    ensures { (a : Setting) (s : State) (b : Memory) (m : Machine) → Represents a (pending_at pending.old (definitions_at definitions.now table_ends.now b)) (source_set p (marks_set marks (table_set table m))) s → Refines a (pending_at pending.old (definitions_at definitions.now table_ends.now b)) (result_call (result_of (builtin_at number)) (args_of x.entry) s) (pending_at pending.new (definitions_at definitions.now table_ends.now b)) (pushed_step (source_set p (marks_set marks (table_set table m))) result) }
{
    let Some(named) = builtins::result_macro(number) else {
        return Err(Answer::Gone);
    };
    match named {
        ResultMacro::Decr => giving::give_number(pending, p, number_results::decr(x)?),
        ResultMacro::Defn => giving::give_defn(
            pending,
            definitions,
            table_ends,
            table,
            p,
            marks,
            x,
        ),
        ResultMacro::Eval => giving::give_number(pending, p, number_results::eval(x)?),
        ResultMacro::Ifdef => giving::give_slice(
            pending,
            p,
            part_results::ifdef(x, definitions, table_ends, table),
        ),
        ResultMacro::Ifelse => giving::give_slice(pending, p, part_results::ifelse(x)),
        ResultMacro::Incr => giving::give_number(pending, p, number_results::incr(x)?),
        ResultMacro::Len => giving::give_number(pending, p, number_results::len(x)),
        ResultMacro::Shift => giving::give_shift(pending, p, marks, x),
        ResultMacro::Substr => giving::give_slice(pending, p, part_results::substr(x)?),
        ResultMacro::Translit => giving::give_translit(pending, p, x),
    }
}

// index, apart from the others, so that its table is not set up for them.
pub(crate) fn search(pending: &mut [u8], p: Position, x: Arguments) -> Result<usize, Answer>
    requires valid_at { ValidAt (λ b. pending_at pending.old b) (λ m. source_set p m) }
    ensures { (a : Setting) (s : State) (b : Memory) (m : Machine) → Represents a (pending_at pending.old b) (source_set p m) s → Refines a (pending_at pending.old b) (call_index (args_of x.entry) s) (pending_at pending.new b) (pushed_step (source_set p m) result) }
{
    giving::give_number(pending, p, number_results::index(x))
}

// The machine with what is given before its text ahead.
pub(crate) fn given(m: Machine, g: Result<usize, Answer>) -> Stepped
    ensures { result ≡ pushed_step m g }
{
    match g {
        Ok(from) => m.with_source(m.source.pushed(from)).on(),
        Err(answer) => m.refused(answer),
    }
}

// Those that change other things; divnum, which reads the current stream; include and sinclude, which read the set.
pub(crate) fn perform(
    text: &[u8],
    set: &[u8],
    pending: &mut [u8],
    definitions: &mut [u8],
    table_ends: &mut [u32],
    streams: &mut [u8],
    owners: &mut [u8],
    wrap: &mut [u8],
    errors: &mut [u8],
    output: &mut [u8],
    scratch: &mut [u8],
    m: Machine,
    x: Arguments,
    number: u8,
) -> Stepped
    requires valid { Valid (λ b. input_at text.now set.now (pending_at pending.old (definitions_at definitions.old table_ends.old (sinks_at streams.old owners.old output.old (wrap_at wrap.old (errors_at errors.old b)))))) m }
    requires scratch_len { length scratch.old ≡ most_lent }
    ensures { (a : Setting) (s : State) (b : Memory) → Represents a (input_at text.now set.now (pending_at pending.old (definitions_at definitions.old table_ends.old (sinks_at streams.old owners.old output.old (wrap_at wrap.old (errors_at errors.old b)))))) m s → Refines a (input_at text.now set.now (pending_at pending.old (definitions_at definitions.old table_ends.old (sinks_at streams.old owners.old output.old (wrap_at wrap.old (errors_at errors.old b)))))) (change_call (change_of (builtin_at number)) (args_of x.entry) s) (input_at text.now set.now (pending_at pending.new (definitions_at definitions.new table_ends.new (sinks_at streams.new owners.new output.new (wrap_at wrap.new (errors_at errors.new b)))))) result }
{
    let Some(named) = builtins::change_macro(number) else {
        return m.refused(Answer::Gone);
    };
    match named {
        ChangeMacro::Changecom => change_marks::changecom(m, x),
        ChangeMacro::Changequote => change_marks::changequote(m, x),
        ChangeMacro::Define => defining::define(definitions, table_ends, m, x),
        ChangeMacro::Divert => diverting::divert(m, x),
        ChangeMacro::Dnl => dnl::dnl(text, pending, m),
        ChangeMacro::Errprint => appending::errprint(errors, m, x),
        ChangeMacro::M4exit => diverting::m4exit(m, x),
        ChangeMacro::M4wrap => appending::m4wrap(wrap, m, x),
        ChangeMacro::Popdef => defining::popdef(definitions, table_ends, m, x),
        ChangeMacro::Pushdef => defining::pushdef(definitions, table_ends, m, x),
        ChangeMacro::Undefine => defining::undefine(definitions, table_ends, m, x),
        ChangeMacro::Undivert => diverting::undivert(streams, owners, output, scratch, m, x),
        ChangeMacro::Divnum => given(
            m,
            giving::give_number(pending, m.source, number_results::divnum(m.sinks.current)),
        ),
        ChangeMacro::Include => given(m, including::give_contents(set, pending, m.source, x, true)),
        ChangeMacro::Sinclude => given(
            m,
            including::give_contents(set, pending, m.source, x, false),
        ),
        ChangeMacro::Copydef => defining::copydef(definitions, table_ends, m, x),
    }
}
