// The special steps: the end of the text, a call that is made, and what can't be read.
ghost use Rattle.std.specs.Prelude.{◌≡◌, length};
ghost use Rattle.rules.specs.State.{State};
ghost use Rattle.rules.specs.Run.{Setting};
ghost use Rattle.rules.specs.Step.{at_end, step};
ghost use Rattle.expander.specs.Limits.{most_lent};
ghost use Rattle.expander.specs.Events.{SpecialWithin, SpecialIs, ValidSpecial};
ghost use Rattle.expander.specs.Machine.{Memory, Represents, Refines, Valid, input_at, pending_at, calls_at, definitions_at, sinks_at, wrap_at, errors_at};

use crate::events::Special;
use crate::machine::{Machine, Stepped};
use crate::{buffers, calling, diverting};
use rules::Answer;

// Nothing is ahead.
fn at_end(
    pending: &mut [u8],
    streams: &[u8],
    owners: &[u8],
    wrap: &[u8],
    output: &mut [u8],
    m: Machine,
) -> Stepped
    requires valid { Valid (λ b. pending_at pending.old (sinks_at streams.now owners.now output.old (wrap_at wrap.now b))) m }
    requires from_value { m.source.from ≡ length pending.old }
    ensures { (a : Setting) (s : State) (b : Memory) → Represents a (pending_at pending.old (sinks_at streams.now owners.now output.old (wrap_at wrap.now b))) m s → Refines a (pending_at pending.old (sinks_at streams.now owners.now output.old (wrap_at wrap.now b))) (at_end s.calls s.wrap s) (pending_at pending.new (sinks_at streams.now owners.now output.new (wrap_at wrap.now b))) result }
{
    if m.calls.opens != 0 {
        return m.refused(Answer::Unclosed(3));
    }
    let n = m.wrap;
    if n == 0 {
        return diverting::finish(streams, owners, output, m);
    }
    if pending.len() < n {
        return m.refused(Answer::Room(1));
    }
    let from = buffers::push(pending, m.source.from, &wrap[..n]);
    m.with_source(m.source.pushed(from)).with_wrap(0).on()
}

// One special step.
pub(crate) fn special_step(
    text: &[u8],
    set: &[u8],
    pending: &mut [u8],
    calls: &[u8],
    ends: &[u32],
    stack: &[u32],
    definitions: &mut [u8],
    table_ends: &mut [u32],
    streams: &mut [u8],
    owners: &mut [u8],
    wrap: &mut [u8],
    errors: &mut [u8],
    output: &mut [u8],
    scratch: &mut [u8],
    m: Machine,
    e: Special,
) -> Stepped
    requires valid_special { ValidSpecial (λ b. input_at text.now set.now (pending_at pending.old (calls_at calls.now ends.now stack.now (definitions_at definitions.old table_ends.old (sinks_at streams.old owners.old output.old (wrap_at wrap.old (errors_at errors.old b))))))) m e }
    requires special_within { SpecialWithin text.now pending.old m e }
    requires scratch_len { length scratch.old ≡ most_lent }
    ensures { (a : Setting) (s : State) (b : Memory) → Represents a (input_at text.now set.now (pending_at pending.old (calls_at calls.now ends.now stack.now (definitions_at definitions.old table_ends.old (sinks_at streams.old owners.old output.old (wrap_at wrap.old (errors_at errors.old b))))))) m s → SpecialIs s e → Refines a (input_at text.now set.now (pending_at pending.old (calls_at calls.now ends.now stack.now (definitions_at definitions.old table_ends.old (sinks_at streams.old owners.old output.old (wrap_at wrap.old (errors_at errors.old b))))))) (step s) (input_at text.now set.now (pending_at pending.new (calls_at calls.now ends.now stack.now (definitions_at definitions.new table_ends.new (sinks_at streams.new owners.new output.new (wrap_at wrap.new (errors_at errors.new b))))))) result }
{
    match e {
        Special::End => at_end(pending, streams, owners, wrap, output, m),
        Special::OpenQuote => m.refused(Answer::Unclosed(1)),
        Special::OpenComment => m.refused(Answer::Unclosed(2)),
        Special::Close => {
            let to = m.source.advanced(pending, 1);
            calling::close(
                text,
                set,
                pending,
                calls,
                ends,
                stack,
                definitions,
                table_ends,
                streams,
                owners,
                wrap,
                errors,
                output,
                scratch,
                m.with_source(to),
            )
        }
        Special::Bare { n, meaning } => calling::bare(
            text,
            set,
            pending,
            calls,
            ends,
            definitions,
            table_ends,
            streams,
            owners,
            wrap,
            errors,
            output,
            scratch,
            m,
            n,
            meaning,
        ),
    }
}
