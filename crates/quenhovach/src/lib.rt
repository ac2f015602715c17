// The library for C and Rust: `expander::expand` with its answer as six numbers, and the index of lines. include/quenhovach.h declares both.
#![tactic(auto)]

ghost use Rattle.quenhovach.specs.Reported.{Reported};

pub mod index;
pub mod sheets;

// Expands a text in lent buffers, under a budget of steps; what it includes is in the set. The report is number, detail, completed steps, place, count of output bytes
// and count of error bytes; the number is also what is returned.
#[unsafe(no_mangle)]
pub extern "C" fn quenhovach_expand(
    text: &[u8],
    set: &[u8],
    pending: &mut [u8],
    calls: &mut [u8],
    definitions: &mut [u8],
    streams: &mut [u8],
    wrap: &mut [u8],
    errors: &mut [u8],
    output: &mut [u8],
    budget: u32,
    report: &mut [u32; 6],
) -> u32
    ensures { Reported text.now set.now budget (record { pending = pending.old; calls = calls.old; definitions = definitions.old; streams = streams.old; wrap = wrap.old; errors = errors.old; output = output.old }) (record { pending = pending.new; calls = calls.new; definitions = definitions.new; streams = streams.new; wrap = wrap.new; errors = errors.new; output = output.new }) result report.new }
{
    let r = expander::expand(
        text,
        set,
        pending,
        calls,
        definitions,
        streams,
        wrap,
        errors,
        output,
        budget,
    );
    let numbers = answers::numbers_of(r);
    *report = numbers;
    numbers[0]
}
