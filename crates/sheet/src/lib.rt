// The sheet (02, request 4): a text read as lines of names and readings, expanding and reading in one call, and a question by name.
#![tactic(auto)]

mod decimals;
mod entries;
mod values;

ghost use Rattle.std.specs.Prelude.{◌≡◌, []};
ghost use Rattle.rules.specs.Sheets.{unused_line, is_named, question, sheet_of, sheet_read, SheetExpanded};

use rules::{Answer, Entry, Sheet, SheetError, SheetReport, Value};

// At most so many lines, and so many digits of a decimal.
const MOST_LINES: usize = 256;

const MOST_DIGITS: usize = 15;

// The sheet of no lines, which a refusal shows.
pub fn empty() -> Sheet
    ensures { result ≡ sheet_of [] }
{
    let unused = Entry {
        name: 0,
        length: 0,
        value: Value::Number(0),
    };
    Sheet {
        lines: [unused; MOST_LINES],
        count: 0,
    }
}

// A name of so many bytes at a place lies in the text, and has these bytes. A place and a length that go beyond the end are told without their sum.
pub fn is_named(text: &[u8], place: usize, length: usize, name: &[u8]) -> bool
    ensures { result ≡ is_named text.now name.now (record { name = place; length = length; value = unused_line.value }) }
{
    if text.len() < place || text.len() - place < length {
        return false;
    }
    ascii::same(&text[place..place + length], name)
}

// The reading of the first line of this name, of any sheet and any text: each line below the count is looked at once.
pub fn look_up(sheet: &Sheet, text: &[u8], name: &[u8]) -> Option<Value>
    ensures { result ≡ question sheet.now text.now name.now }
{
    let line = sheet
        .lines
        .iter()
        .take(sheet.count)
        .find(|line| is_named(text, line.name, line.length, name))?;
    Some(line.value)
}

// A text read as a sheet.
pub fn read(text: &[u8]) -> Result<Sheet, SheetError>
    ensures { result ≡ sheet_read text.now }
{
    let mut sheet = empty();
    let mut place: usize = 0;
    // A line and a word are known by their places, which an iterator of lines does not give.
    while place < text.len() {
        let count = sheet.count;
        if MOST_LINES <= count {
            return Err(SheetError::TooMany(257));
        }
        let number = count as u32 + 1;
        let end = place + entries::until_newline(&text[place..]);
        let line = entries::line_at(&text[place..end], place).ok_or(SheetError::Malformed(number))?;
        if look_up(&sheet, text, &text[place..place + line.length]).is_some() {
            return Err(SheetError::Twice(number));
        }
        sheet.lines[count] = line;
        sheet.count = count + 1;
        place = end + 1;
    }
    Ok(sheet)
}

// Expands a text in lent buffers, as `expander::expand` does, and reads what it wrote as a sheet. Only a run that ended done is read.
pub fn expand(
    text: &[u8],
    set: &[u8],
    pending: &mut [u8],
    calls: &mut [u8],
    definitions: &mut [u8],
    streams: &mut [u8],
    wrap: &mut [u8],
    errors: &mut [u8],
    output: &mut [u8],
    budget: u32,
) -> SheetReport
    ensures { SheetExpanded text.now set.now budget (record { pending = pending.old; calls = calls.old; definitions = definitions.old; streams = streams.old; wrap = wrap.old; errors = errors.old; output = output.old }) (record { pending = pending.new; calls = calls.new; definitions = definitions.new; streams = streams.new; wrap = wrap.new; errors = errors.new; output = output.new }) result }
{
    let r = expander::expand(
        text,
        set,
        pending,
        calls,
        definitions,
        streams,
        wrap,
        errors,
        output,
        budget,
    );
    let refused = SheetReport {
        answer: Err(SheetError::NotDone(r.answer)),
        steps: r.steps,
        place: r.place,
        output: r.output,
        errors: r.errors,
    };
    let Answer::Done = r.answer else {
        return refused;
    };
    SheetReport {
        answer: read(&output[..r.output as usize]),
        ..refused
    }
}
