// A run: steps until one ends the run or is refused, or the budget is spent.
ghost use Rattle.std.specs.Prelude.{◌≡◌, List, [], length, Some};
ghost use Rattle.rules.specs.Sets.{Item, set_items};
ghost use Rattle.rules.specs.State.{fresh_start, start_state};
ghost use Rattle.rules.specs.Run.{Setting, lengths, run_from};
ghost use Rattle.expander.specs.Limits.{most_lent};
ghost use Rattle.expander.specs.Buckets.{Chained};
ghost use Rattle.expander.specs.Machine.{Memory, memory, Limits, Represents};
ghost use Rattle.expander.specs.Run.{Roomy, Leaves};

use crate::calls::Calls;
use crate::limits::ALL_OWN;
use crate::machine::{Machine, Progress};
use crate::packed::Packed;
use crate::plain_steps::Stop;
use crate::sinks::Sinks;
use crate::source::Position;
use crate::table::Definitions;
use crate::{marks, plain_steps, special_steps};
use rules::Answer;

// How a run ended: its answer, the completed steps, and the by-value part of the standing state.
#[derive(Clone, Copy)]
pub(crate) struct Halted {
    pub(crate) answer: Answer,
    pub(crate) steps: u32,
    pub(crate) machine: Machine,
}

// The machine at the start of a run, over a buffer for pending text of `from` bytes and chains without a definition.
fn start(from: usize) -> Machine
    ensures { (a : Setting) (b : Memory) (is : List Item) → Limits a b → Chained b.table_ends [] → set_items b.set ≡ Some is → length b.pending ≡ from → Represents a b result (start_state is (fresh_start b.text b.set)) }
{
    let none = Packed { count: 0, used: 0 };
    Machine {
        marks: marks::default_marks(),
        source: Position { from, taken: 0 },
        calls: Calls {
            strings: none,
            opens: 0,
        },
        table: Definitions {
            packed: none,
            own: ALL_OWN,
        },
        sinks: Sinks {
            current: 0,
            waiting: 0,
            output: 0,
        },
        wrap: 0,
        errors: 0,
    }
}

// A run of a text with a good set. Whatever the answer, memory and machine represent the standing state, which on a refusal is that before the refused step.
pub(crate) fn run(
    text: &[u8],
    set: &[u8],
    pending: &mut [u8],
    calls: &mut [u8],
    ends: &mut [u32],
    stack: &mut [u32],
    definitions: &mut [u8],
    table_ends: &mut [u32],
    streams: &mut [u8],
    owners: &mut [u8],
    wrap: &mut [u8],
    errors: &mut [u8],
    output: &mut [u8],
    scratch: &mut [u8],
    budget: u32,
) -> Halted
    requires { Roomy (memory text.now set.now pending.old calls.old ends.old stack.old definitions.old table_ends.old streams.old owners.old wrap.old errors.old output.old) × (length scratch.old ≡ most_lent) }
    ensures { (a : Setting) (is : List Item) → set_items set.now ≡ Some is → Limits a (memory text.now set.now pending.old calls.old ends.old stack.old definitions.old table_ends.old streams.old owners.old wrap.old errors.old output.old) → Leaves a (run_from (lengths a) budget 0 (start_state is (fresh_start text.now set.now))) (memory text.now set.now pending.new calls.new ends.new stack.new definitions.new table_ends.new streams.new owners.new wrap.new errors.new output.new) result }
{
    let from = pending.len();
    let mut m = start(from);
    let mut left = budget;
    while 0 < left {
        let s = plain_steps::run_plain(
            text,
            pending,
            calls,
            ends,
            stack,
            definitions,
            table_ends,
            streams,
            owners,
            output,
            scratch,
            m,
            left,
        );
        m = s.machine;
        left = s.left;
        let stop = s.stop;
        match stop {
            Stop::Stopped(answer) => {
                let steps = budget - left;
                return Halted {
                    answer,
                    steps,
                    machine: m,
                };
            }
            Stop::Special(e) => {
                let t = special_steps::special_step(
                    text,
                    set,
                    pending,
                    calls,
                    ends,
                    stack,
                    definitions,
                    table_ends,
                    streams,
                    owners,
                    wrap,
                    errors,
                    output,
                    scratch,
                    m,
                    e,
                );
                let progress = t.progress;
                match progress {
                    Progress::Refused(answer) => {
                        let steps = budget - left;
                        return Halted {
                            answer,
                            steps,
                            machine: m,
                        };
                    }
                    Progress::Ended(answer) => {
                        let machine = t.machine;
                        let steps = budget - left + 1;
                        return Halted {
                            answer,
                            steps,
                            machine,
                        };
                    }
                    Progress::On => {
                        m = t.machine;
                    }
                }
            }
        }
        left -= 1;
    }
    Halted {
        answer: Answer::Spent,
        steps: budget,
        machine: m,
    }
}
