// Plain steps: one, and as many as follow one another.
ghost use Rattle.std.specs.Prelude.{◌≡◌, ℕ, length};
ghost use Rattle.rules.specs.Run.{Setting, Ended};
ghost use Rattle.rules.specs.State.{State};
ghost use Rattle.rules.specs.Step.{step};
ghost use Rattle.expander.specs.Limits.{most_lent};
ghost use Rattle.expander.specs.Events.{PlainWithin, PlainIs};
ghost use Rattle.expander.specs.Machine.{Memory, Represents, Refines, Valid, text_at, pending_at, calls_at, definitions_at, sinks_at};
ghost use Rattle.expander.specs.Run.{Running, AfterPlainSteps};

use crate::events::{Event, Plain, Special};
use crate::machine::{Machine, Progress, Stepped};
use crate::{delivering, events};
use rules::Answer;

// Why plain steps that follow one another end: the run stops here, its budget spent or a step refused; or the next step is special.
// A run may stop because it is done, too, so this is no Result.
#[derive(Clone, Copy)]
pub(crate) enum Stop {
    Stopped(Answer),
    Special(Special),
}

// Where they end, with so many steps left.
#[derive(Clone, Copy)]
pub(crate) struct PlainSteps {
    pub(crate) stop: Stop,
    pub(crate) left: u32,
    pub(crate) machine: Machine,
}

// One plain step.
fn plain_step(
    text: &[u8],
    pending: &[u8],
    calls: &mut [u8],
    ends: &mut [u32],
    stack: &mut [u32],
    streams: &mut [u8],
    owners: &mut [u8],
    output: &mut [u8],
    m: Machine,
    event: Plain,
) -> Stepped
    requires valid { Valid (λ b. text_at text.now (pending_at pending.now (calls_at calls.old ends.old stack.old (sinks_at streams.old owners.old output.old b)))) m }
    requires plain_within { PlainWithin text.now pending.now m event }
    ensures { (a : Setting) (s : State) (b : Memory) → Represents a (text_at text.now (pending_at pending.now (calls_at calls.old ends.old stack.old (sinks_at streams.old owners.old output.old b)))) m s → PlainIs s event → Refines a (text_at text.now (pending_at pending.now (calls_at calls.old ends.old stack.old (sinks_at streams.old owners.old output.old b)))) (step s) (text_at text.now (pending_at pending.now (calls_at calls.new ends.new stack.new (sinks_at streams.new owners.new output.new b)))) result }
{
    match event {
        Plain::Deliver { start, n, width } => delivering::deliver(
            text, pending, calls, ends, stack, streams, owners, output, m, start, n, width,
        ),
        Plain::Emit(x) => {
            let to = m.source.advanced(pending, 1);
            delivering::emit_byte(streams, owners, output, m.with_source(to), x)
        }
        Plain::Collect { byte, depth } => {
            let to = m.source.advanced(pending, 1);
            delivering::collect_byte(calls, ends, stack, m.with_source(to), byte, depth)
        }
        Plain::Skip => {
            let to = m.source.advanced(pending, 1);
            m.with_source(to).on()
        }
        Plain::Separate => {
            let to = m.source.advanced(pending, 1);
            delivering::next_argument(calls, ends, stack, m.with_source(to))
        }
        Plain::Open { n, bucket } => {
            delivering::open_call(text, pending, calls, ends, stack, m, n, bucket)
        }
    }
}

// As many plain steps as the budget allows, up to one that is refused or special.
pub(crate) fn run_plain(
    text: &[u8],
    pending: &[u8],
    calls: &mut [u8],
    ends: &mut [u32],
    stack: &mut [u32],
    definitions: &[u8],
    table_ends: &[u32],
    streams: &mut [u8],
    owners: &mut [u8],
    output: &mut [u8],
    scratch: &mut [u8],
    first: Machine,
    budget: u32,
) -> PlainSteps
    requires valid { Valid (λ b. text_at text.now (pending_at pending.now (calls_at calls.old ends.old stack.old (definitions_at definitions.now table_ends.now (sinks_at streams.old owners.old output.old b))))) first }
    requires scratch_len { length scratch.old ≡ most_lent }
    ensures { (a : Setting) (b : Memory) (w : Ended) (count : ℕ) → Running a (text_at text.now (pending_at pending.now (calls_at calls.old ends.old stack.old (definitions_at definitions.now table_ends.now (sinks_at streams.old owners.old output.old b))))) first budget count w → AfterPlainSteps a (text_at text.now (pending_at pending.now (calls_at calls.new ends.new stack.new (definitions_at definitions.now table_ends.now (sinks_at streams.new owners.new output.new b))))) w budget count result }
{
    let mut m = first;
    let mut left = budget;
    // The steps that are left are handed back at each end, so they are counted down here.
    while 0 < left {
        match events::event_ahead(text, pending, stack, definitions, table_ends, scratch, m) {
            Event::Special(e) => {
                return PlainSteps {
                    stop: Stop::Special(e),
                    left,
                    machine: m,
                };
            }
            Event::Plain(p) => {
                let t = plain_step(
                    text, pending, calls, ends, stack, streams, owners, output, m, p,
                );
                let progress = t.progress;
                let after = t.machine;
                match progress {
                    Progress::Refused(answer) => {
                        return PlainSteps {
                            stop: Stop::Stopped(answer),
                            left,
                            machine: m,
                        };
                    }
                    Progress::Ended(answer) => {
                        return PlainSteps {
                            stop: Stop::Stopped(answer),
                            left,
                            machine: after,
                        };
                    }
                    Progress::On => {
                        m = after;
                    }
                }
            }
        }
        left -= 1;
    }
    PlainSteps {
        stop: Stop::Stopped(Answer::Spent),
        left,
        machine: m,
    }
}
