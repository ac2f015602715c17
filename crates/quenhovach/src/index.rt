// The index of lines, with its answers as numbers.
ghost use Rattle.rules.specs.Lines.{line_of, start_of};
ghost use Rattle.quenhovach.specs.Looked.{IndexedInNumbers, InNumbers};

// Builds the index of a text in lent words and totals. Returns 0, or the number of the refusal.
#[unsafe(no_mangle)]
pub extern "C" fn quenhovach_lines_build(text: &[u8], words: &mut [u64], totals: &mut [u32]) -> u32
    ensures { IndexedInNumbers text.now words.old totals.old result words.new totals.new }
{
    lines::number_of(lines::build(text, words, totals))
}

// The line of a place, by any words and totals; 0 with a refusal, whose number is returned.
#[tactic(auto, unfolding(rules::specs::Lines::index_value))]
#[unsafe(no_mangle)]
pub extern "C" fn quenhovach_lines_line_of(
    length: usize,
    words: &[u64],
    totals: &[u32],
    place: usize,
    line: &mut u64,
) -> u32
    ensures { InNumbers (line_of length words.now totals.now place) result line.new }
{
    let answer = lines::line_of(length, words, totals, place);
    *line = lines::value_of(answer);
    lines::number_of(answer)
}

// The place where a line starts, by any words and totals; 0 with a refusal, whose number is returned.
#[tactic(auto, unfolding(rules::specs::Lines::index_value))]
#[unsafe(no_mangle)]
pub extern "C" fn quenhovach_lines_start_of(
    length: usize,
    words: &[u64],
    totals: &[u32],
    line: u64,
    start: &mut u64,
) -> u32
    ensures { InNumbers (start_of length words.now totals.now line) result start.new }
{
    let answer = lines::start_of(length, words, totals, line);
    *start = lines::value_of(answer);
    lines::number_of(answer)
}
