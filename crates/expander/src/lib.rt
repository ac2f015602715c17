// The expander: the run of a text in the seven lent buffers. Its links and its own error text and output are local, and what it wrote is
// copied out at the end.
#![tactic(auto)]

mod appending;
mod argument_strings;
mod arguments;
mod buckets;
mod buffers;
mod calling;
mod calls;
mod change_marks;
mod defining;
mod defn;
mod delivering;
mod diverting;
mod dnl;
mod events;
mod fields;
mod giving;
mod including;
mod limits;
mod lists;
mod machine;
mod macros;
mod marks;
mod meanings;
mod names;
mod number_results;
mod numeral;
mod packed;
mod part_results;
mod plain_steps;
mod reporting;
mod run;
mod sinks;
mod source;
mod special_steps;
mod streams;
mod substitution;
mod table;
mod tokens;

ghost use Rattle.std.specs.Prelude.{◌≡◌, [], ◌∷◌, length};
ghost use Rattle.rules.specs.Sets.{set_items};
ghost use Rattle.rules.specs.State.{fresh_start};
ghost use Rattle.rules.specs.Run.{all_lendable, started};
ghost use Rattle.rules.specs.Contract.{setting_of, Expanded};
ghost use Rattle.expander.specs.Limits.{most_lent};
ghost use Rattle.expander.specs.Run.{Lent, LinkLengths, Wrote, Zeroed};

use crate::limits::{CALL_ENDS, MOST_LENT, STACK, TABLE_ENDS};
use rules::{Answer, Report};

// The report of a call that is refused before its first step.
fn not_started(answer: Answer) -> Report
    ensures { result ≡ record { answer = answer; steps = 0; place = 0; output = 0; errors = 0 } }
{
    Report {
        answer,
        steps: 0,
        place: 0,
        output: 0,
        errors: 0,
    }
}

// The run over links and texts of its own, with what it wrote copied out, if the set is good. Of error text and output it gets as much as is lent.
fn work(
    text: &[u8],
    set: &[u8],
    pending: &mut [u8],
    calls: &mut [u8],
    definitions: &mut [u8],
    streams: &mut [u8],
    wrap: &mut [u8],
    errors: &mut [u8],
    output: &mut [u8],
    budget: u32,
) -> Report
    requires { Lent (length text.now) (length pending.old) (length calls.old) (length definitions.old) (length streams.old) (length wrap.old) (length errors.old) (length output.old) }
    ensures { Wrote (started (set_items set.now) (fresh_start text.now set.now) (setting_of (record { pending = pending.old; calls = calls.old; definitions = definitions.old; streams = streams.old; wrap = wrap.old; errors = errors.old; output = output.old }) budget)) errors.old output.old errors.new output.new result }
{
    if !container::is_good(set) {
        return not_started(Answer::BadSet);
    }
    let mut ends = [0u32; CALL_ENDS];
    let mut stack = [0u32; STACK];
    let mut table_ends = [0u32; TABLE_ENDS];
    let mut owners = [0u8; MOST_LENT];
    let mut error_text = [0u8; MOST_LENT];
    let mut output_text = [0u8; MOST_LENT];
    let mut scratch = [0u8; MOST_LENT];
    buckets::begin(&mut table_ends);
    let most = output.len();
    let most_errors = errors.len();
    let h = run::run(
        text,
        set,
        pending,
        calls,
        &mut ends,
        &mut stack,
        definitions,
        &mut table_ends,
        streams,
        &mut owners,
        wrap,
        &mut error_text[..most_errors],
        &mut output_text[..most],
        &mut scratch,
        budget,
    );
    let r = reporting::report_of(h);
    let n = r.output as usize;
    let k = r.errors as usize;
    buffers::copy_front(&output_text[..n], output);
    buffers::copy_front(&error_text[..k], errors);
    r
}

// The five working buffers are all zero.
fn clear_five(a: &mut [u8], b: &mut [u8], c: &mut [u8], d: &mut [u8], e: &mut [u8])
    ensures { Zeroed a.old a.new × Zeroed b.old b.new × Zeroed c.old c.new × Zeroed d.old d.new × Zeroed e.old e.new }
{
    buffers::clear(a);
    buffers::clear(b);
    buffers::clear(c);
    buffers::clear(d);
    buffers::clear(e);
}

// None of the lengths is above 65,536 bytes.
fn lendable(t: usize, a: usize, b: usize, c: usize, d: usize, e: usize, f: usize, g: usize) -> bool
    ensures { result ≡ all_lendable (t ∷ a ∷ b ∷ c ∷ d ∷ e ∷ f ∷ g ∷ []) }
{
    if MOST_LENT < t {
        return false;
    }
    if MOST_LENT < a {
        return false;
    }
    if MOST_LENT < b {
        return false;
    }
    if MOST_LENT < c {
        return false;
    }
    if MOST_LENT < d {
        return false;
    }
    if MOST_LENT < e {
        return false;
    }
    if MOST_LENT < f {
        return false;
    }
    if MOST_LENT < g {
        return false;
    }
    true
}

// Expands a text in lent buffers, under a budget of steps. What it includes is in the set.
pub fn expand(
    text: &[u8],
    set: &[u8],
    pending: &mut [u8],
    calls: &mut [u8],
    definitions: &mut [u8],
    streams: &mut [u8],
    wrap: &mut [u8],
    errors: &mut [u8],
    output: &mut [u8],
    budget: u32,
) -> Report
    ensures { Expanded text.now set.now budget (record { pending = pending.old; calls = calls.old; definitions = definitions.old; streams = streams.old; wrap = wrap.old; errors = errors.old; output = output.old }) (record { pending = pending.new; calls = calls.new; definitions = definitions.new; streams = streams.new; wrap = wrap.new; errors = errors.new; output = output.new }) result }
{
    if lendable(
        text.len(),
        pending.len(),
        calls.len(),
        definitions.len(),
        streams.len(),
        wrap.len(),
        errors.len(),
        output.len(),
    ) {
        let r = work(
            text,
            set,
            pending,
            calls,
            definitions,
            streams,
            wrap,
            errors,
            output,
            budget,
        );
        clear_five(pending, calls, definitions, streams, wrap);
        return r;
    }
    not_started(Answer::Lend)
}
