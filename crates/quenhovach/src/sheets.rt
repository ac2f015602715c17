// The sheet, with its answers as numbers. A sheet is 1,281 words: the count of its lines, and five words for each of 256 lines. These are place and
// length of its name; the kind of its reading, 1 a number, 2 a decimal, 3 a word; the number's 32 bits, the decimal's 64, or the word's place; and the
// word's length.
ghost use Rattle.std.specs.Prelude.{◌≡◌};
ghost use Rattle.std.specs.Float.{binary64};
ghost use Rattle.std.specs.Float.Ieee.{to_bits};
ghost use Rattle.rules.specs.Sheets.{sheet_number, sheet_detail, sheet_in};
ghost use Rattle.quenhovach.specs.Sheets.{value_words, sheet_words, sheet_numbers, found_line, ReadInWords, SheetInWords};

use rules::{Sheet, SheetError, SheetReport, Value};

const LINES: usize = 256;

const LINE_WORDS: usize = 5;

const SHEET_WORDS: usize = 1281;

// The 64 bits of a decimal; of all NaNs one pattern.
fn decimal_bits(x: f64) -> u64
    ensures { result ≡ to_bits binary64 x }
{
    if x.is_nan() {
        return 9221120237041090560;
    }
    x.to_bits()
}

// Kind, value and length of a reading.
fn value_words(v: Value) -> [u64; 3]
    ensures { result ≡ value_words v }
{
    match v {
        Value::Number(n) => [1, u64::from(n.cast_unsigned()), 0],
        Value::Decimal(x) => [2, decimal_bits(x), 0],
        Value::Word { place, length } => [3, place as u64, length as u64],
    }
}

// By value, since of a lent sheet the proof lacks that its array has 256 lines.
fn sheet_words(s: Sheet) -> [u64; SHEET_WORDS]
    ensures { result ≡ sheet_words s }
{
    let mut words = [0u64; SHEET_WORDS];
    words[0] = s.count as u64;
    // A line has five words, so the place in the words is counted from the line's.
    for i in 0..LINES {
        let line = s.lines[i];
        let at = 1 + i * LINE_WORDS;
        let v = value_words(line.value);
        words[at] = line.name as u64;
        words[at + 1] = line.length as u64;
        words[at + 2] = v[0];
        words[at + 3] = v[1];
        words[at + 4] = v[2];
    }
    words
}

// The words of what was read: a refusal has those of no lines.
fn answer_words(answer: Result<Sheet, SheetError>) -> [u64; SHEET_WORDS]
    ensures { result ≡ sheet_words (sheet_in answer) }
{
    match answer {
        Ok(s) => sheet_words(s),
        Err(_) => sheet_words(sheet::empty()),
    }
}

fn number_of(answer: &Result<Sheet, SheetError>) -> u32
    ensures { result ≡ sheet_number answer.now }
{
    match answer {
        Ok(_) => 0,
        Err(SheetError::Malformed(_)) => 20,
        Err(SheetError::Twice(_)) => 21,
        Err(SheetError::TooMany(_)) => 22,
        Err(SheetError::NotDone(a)) => answers::number_of(*a),
    }
}

fn detail_of(answer: &Result<Sheet, SheetError>) -> u32
    ensures { result ≡ sheet_detail answer.now }
{
    match answer {
        Ok(_) => 0,
        Err(SheetError::Malformed(line) | SheetError::Twice(line) | SheetError::TooMany(line)) => {
            *line
        }
        Err(SheetError::NotDone(a)) => answers::detail_of(*a),
    }
}

fn numbers_of(r: &SheetReport) -> [u32; 6]
    ensures { result ≡ sheet_numbers r.now }
{
    [
        number_of(&r.answer),
        detail_of(&r.answer),
        r.steps,
        r.place,
        r.output,
        r.errors,
    ]
}

// Expands a text in lent buffers, as `quenhovach_expand` does, and reads what it wrote as a sheet.
#[unsafe(no_mangle)]
pub extern "C" fn quenhovach_sheet_expand(
    text: &[u8],
    set: &[u8],
    pending: &mut [u8],
    calls: &mut [u8],
    definitions: &mut [u8],
    streams: &mut [u8],
    wrap: &mut [u8],
    errors: &mut [u8],
    output: &mut [u8],
    budget: u32,
    report: &mut [u32; 6],
    words: &mut [u64; 1281],
) -> u32
    ensures { SheetInWords text.now set.now budget (record { pending = pending.old; calls = calls.old; definitions = definitions.old; streams = streams.old; wrap = wrap.old; errors = errors.old; output = output.old }) (record { pending = pending.new; calls = calls.new; definitions = definitions.new; streams = streams.new; wrap = wrap.new; errors = errors.new; output = output.new }) result report.new words.new }
{
    let r = sheet::expand(
        text,
        set,
        pending,
        calls,
        definitions,
        streams,
        wrap,
        errors,
        output,
        budget,
    );
    let numbers = numbers_of(&r);
    *words = answer_words(r.answer);
    *report = numbers;
    numbers[0]
}

// Reads a text as a sheet. Returns 0, or the number of the refusal, whose line stands in `line`, else 0.
#[unsafe(no_mangle)]
pub extern "C" fn quenhovach_sheet_read(text: &[u8], words: &mut [u64; 1281], line: &mut u32) -> u32
    ensures { ReadInWords text.now result words.new line.new }
{
    let answer = sheet::read(text);
    *line = detail_of(&answer);
    let number = number_of(&answer);
    *words = answer_words(answer);
    number
}

// The first line of this name, by any words and any text, from 0; 256 where there is none.
#[unsafe(no_mangle)]
pub extern "C" fn quenhovach_sheet_find(words: &[u64; 1281], text: &[u8], name: &[u8]) -> usize
    ensures { result ≡ found_line words.now text.now name.now }
{
    for i in 0..LINES {
        if words[0] <= i as u64 {
            return LINES;
        }
        let at = 1 + i * LINE_WORDS;
        if sheet::is_named(text, words[at] as usize, words[at + 1] as usize, name) {
            return i;
        }
    }
    LINES
}
