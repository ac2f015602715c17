// The report of a run, from how it ended.
ghost use Rattle.std.specs.Prelude.{◌≡◌, ◌≤◌};
ghost use Rattle.expander.specs.Limits.{most_lent};
ghost use Rattle.expander.specs.Run.{halted_report};

use crate::run::Halted;
use rules::Report;

// That of a run that ended by itself is from its last machine. Of one that was refused or whose budget is spent, the machine is that before the refused step, and
// what it wrote counts for nothing.
pub(crate) fn report_of(h: Halted) -> Report
    requires { (h.machine.source.taken ≤ most_lent) × (h.machine.sinks.output ≤ most_lent) × (h.machine.errors ≤ most_lent) }
    ensures { result ≡ halted_report h }
{
    let m = h.machine;
    let stopped = Report {
        answer: h.answer,
        steps: h.steps,
        place: m.source.taken as u32,
        output: 0,
        errors: 0,
    };
    if 1 < answers::number_of(h.answer) {
        return stopped;
    }
    Report {
        output: m.sinks.output as u32,
        errors: m.errors as u32,
        ..stopped
    }
}
