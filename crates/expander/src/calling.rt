// Calls that are made: at once without arguments, or when they are closed.
ghost use Rattle.expander.specs.Limits.{most_lent};
ghost use Rattle.expander.specs.Table.{Finds};
ghost use Rattle.std.specs.Prelude.{◌≡◌, ◌<◌, List, [], ◌∷◌, length, take, Option};
ghost use Rattle.rules.specs.State.{State, Call, taking};
ghost use Rattle.rules.specs.Run.{Setting};
ghost use Rattle.rules.specs.Source.{ahead};
ghost use Rattle.expander.specs.Machine.{Memory, Represents, Refines, Valid, Reach, input_at, pending_at, strings_at, calls_at, definitions_at, sinks_at, wrap_at, errors_at};
ghost use Rattle.rules.specs.Step.{closed};
ghost use Rattle.rules.specs.Macros.{called};
ghost use Rattle.rules.specs.Table.{Meaning as TableMeaning};
ghost use Rattle.expander.specs.Events.{ValidName};

use crate::argument_strings::Arguments;
use crate::machine::{Machine, Stepped};
use crate::table::Meaning;
use crate::{calls, giving, macros, names, packed, table};
use builtins::Kind;
use rules::Answer;

// The name of n bytes ahead, which means something, is called without arguments.
pub(crate) fn bare(
    text: &[u8],
    set: &[u8],
    pending: &mut [u8],
    calls: &[u8],
    ends: &[u32],
    definitions: &mut [u8],
    table_ends: &mut [u32],
    streams: &mut [u8],
    owners: &mut [u8],
    wrap: &mut [u8],
    errors: &mut [u8],
    output: &mut [u8],
    scratch: &mut [u8],
    m: Machine,
    n: usize,
    meaning: Meaning,
) -> Stepped
    requires valid_name { ValidName (λ b. input_at text.now set.now (pending_at pending.old (strings_at calls.now ends.now (definitions_at definitions.old table_ends.old (sinks_at streams.old owners.old output.old (wrap_at wrap.old (errors_at errors.old b))))))) m n meaning }
    requires reach { Reach text.now pending.old m.source 0 n n }
    requires scratch_len { length scratch.old ≡ most_lent }
    ensures { (a : Setting) (s : State) (b : Memory) (w : Option TableMeaning) → Represents a (input_at text.now set.now (pending_at pending.old (strings_at calls.now ends.now (definitions_at definitions.old table_ends.old (sinks_at streams.old owners.old output.old (wrap_at wrap.old (errors_at errors.old b))))))) m s → Finds s.table.definitions w meaning → Refines a (input_at text.now set.now (pending_at pending.old (strings_at calls.now ends.now (definitions_at definitions.old table_ends.old (sinks_at streams.old owners.old output.old (wrap_at wrap.old (errors_at errors.old b))))))) (called w (take n (ahead s.source)) [] (taking n s)) (input_at text.now set.now (pending_at pending.new (strings_at calls.now ends.now (definitions_at definitions.new table_ends.new (sinks_at streams.new owners.new output.new (wrap_at wrap.new (errors_at errors.new b))))))) result }
{
    let strings = m.calls.strings;
    let x = Arguments {
        bytes: calls,
        ends,
        strings,
        base: strings.count,
    };
    let to = m.source.advanced(pending, n);
    match meaning {
        Meaning::Text(i) => {
            names::copy_name(text, pending, m.source, n, scratch);
            let g = giving::give_text(
                pending,
                definitions,
                table_ends,
                m.table,
                to,
                m.marks,
                &scratch[..n],
                x,
                i,
            );
            macros::given(m.with_source(to), g)
        }
        Meaning::Predefined(k) => match builtins::kind_of(k) {
            Kind::Result => {
                let g = macros::give(pending, definitions, table_ends, m.table, to, m.marks, x, k);
                macros::given(m.with_source(to), g)
            }
            Kind::Index => {
                let g = macros::search(pending, to, x);
                macros::given(m.with_source(to), g)
            }
            Kind::Change => {
                let after = m.with_source(to);
                macros::perform(
                    text,
                    set,
                    pending,
                    definitions,
                    table_ends,
                    streams,
                    owners,
                    wrap,
                    errors,
                    output,
                    scratch,
                    after,
                    x,
                    k,
                )
            }
        },
        Meaning::Undefined => m.refused(Answer::Gone),
    }
}

// The innermost call is closed, and made with the definition in force now.
pub(crate) fn close(
    text: &[u8],
    set: &[u8],
    pending: &mut [u8],
    calls: &[u8],
    ends: &[u32],
    stack: &[u32],
    definitions: &mut [u8],
    table_ends: &mut [u32],
    streams: &mut [u8],
    owners: &mut [u8],
    wrap: &mut [u8],
    errors: &mut [u8],
    output: &mut [u8],
    scratch: &mut [u8],
    m: Machine,
) -> Stepped
    requires valid { Valid (λ b. input_at text.now set.now (pending_at pending.old (calls_at calls.now ends.now stack.now (definitions_at definitions.old table_ends.old (sinks_at streams.old owners.old output.old (wrap_at wrap.old (errors_at errors.old b))))))) m }
    requires opens_nonzero { 0 < m.calls.opens }
    requires scratch_len { length scratch.old ≡ most_lent }
    ensures { (a : Setting) (s : State) (b : Memory) (c : Call) (cs : List Call) → Represents a (input_at text.now set.now (pending_at pending.old (calls_at calls.now ends.now stack.now (definitions_at definitions.old table_ends.old (sinks_at streams.old owners.old output.old (wrap_at wrap.old (errors_at errors.old b))))))) m s → s.calls ≡ c ∷ cs → Refines a (input_at text.now set.now (pending_at pending.old (calls_at calls.now ends.now stack.now (definitions_at definitions.old table_ends.old (sinks_at streams.old owners.old output.old (wrap_at wrap.old (errors_at errors.old b))))))) (closed c cs s) (input_at text.now set.now (pending_at pending.new (calls_at calls.now ends.now stack.now (definitions_at definitions.new table_ends.new (sinks_at streams.new owners.new output.new (wrap_at wrap.new (errors_at errors.new b))))))) result }
{
    let strings = m.calls.strings;
    let first = calls::first_string(stack, m.calls);
    let x = Arguments {
        bytes: calls,
        ends,
        strings,
        base: first + 1,
    };
    let name = packed::string(calls, ends, strings, first);
    let left = m.calls.closed(ends, first);
    match table::meaning_of(
        definitions,
        table_ends,
        m.table.packed,
        m.table.own,
        name,
        calls::bucket(stack, m.calls),
    ) {
        Meaning::Text(i) => {
            let g = giving::give_text(
                pending,
                definitions,
                table_ends,
                m.table,
                m.source,
                m.marks,
                name,
                x,
                i,
            );
            macros::given(m.with_calls(left), g)
        }
        Meaning::Predefined(k) => match builtins::kind_of(k) {
            Kind::Result => {
                let g = macros::give(
                    pending,
                    definitions,
                    table_ends,
                    m.table,
                    m.source,
                    m.marks,
                    x,
                    k,
                );
                macros::given(m.with_calls(left), g)
            }
            Kind::Index => {
                let g = macros::search(pending, m.source, x);
                macros::given(m.with_calls(left), g)
            }
            Kind::Change => {
                let after = m.with_calls(left);
                macros::perform(
                    text,
                    set,
                    pending,
                    definitions,
                    table_ends,
                    streams,
                    owners,
                    wrap,
                    errors,
                    output,
                    scratch,
                    after,
                    x,
                    k,
                )
            }
        },
        Meaning::Undefined => m.refused(Answer::Gone),
    }
}
