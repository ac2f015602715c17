// The index of lines (02, request 6): which line a place of a text is on, and where a line starts. Once it is built, the text itself is not
// needed any more: only its length.
#![tactic(auto)]

ghost use Rattle.std.specs.Prelude.{◌≡◌, ℕ, ◌%◌, length, Ok};
ghost use Rattle.std.specs.Int.Count.{ones_in};
ghost use Rattle.rules.specs.Lines.{index_number, index_value_by, judged_index, last_below, Indexed, line_of, start_of};

use rules::IndexError;

mod bits;

// The longest text that has an index.
const LONGEST: usize = 65536;

// What every call refuses first: a text that is too long, then too little room. A text has as many words and totals as its length divided by
// 64, plus one, of each.
fn admit(length: usize, words: &[u64], totals: &[u32]) -> Result<(), IndexError>
    ensures { result ≡ judged_index length words.now totals.now (Ok tt) }
{
    if LONGEST < length {
        return Err(IndexError::TooLong);
    }
    let last = length / bits::COUNT;
    if words.len() <= last || totals.len() <= last {
        return Err(IndexError::NoRoom);
    }
    Ok(())
}

// Builds the index of a text in lent words and totals. A word has one bit for each of 64 bytes, the least for the first, set at newlines; its
// total is the count of newlines before its bytes. What is lent behind the text's words and totals stays as it was; where the answer is a
// refusal, all does.
pub fn build(text: &[u8], words: &mut [u64], totals: &mut [u32]) -> Result<(), IndexError>
    ensures { Indexed text.now words.old totals.old result words.new totals.new }
{
    admit(text.len(), words, totals)?;
    let count = text.len() / bits::COUNT + 1;
    let mut total: u32 = 0;
    // A text whose length is a multiple of 64 has one word more than chunks, so no `chunks` fits.
    for k in 0..count {
        let word = bits::word_of(&text[k * bits::COUNT..]);
        words[k] = word;
        totals[k] = total;
        total += word.count_ones();
    }
    Ok(())
}

// The rank of a place: how many bits are set below it in its word.
fn rank(word: u64, place: usize) -> u32
    ensures { result ≡ ones_in (place % 64) word }
{
    let below = (1u64 << (place % bits::COUNT)) - 1;
    (word & below).count_ones()
}

// The line of a place in a text of this length, by any words and totals. One total is read, and one word.
pub fn line_of(
    length: usize,
    words: &[u64],
    totals: &[u32],
    place: usize,
) -> Result<u64, IndexError>
    ensures { result ≡ line_of length words.now totals.now place }
{
    admit(length, words, totals)?;
    if length < place {
        return Err(IndexError::Beyond);
    }
    let k = place / bits::COUNT;
    Ok(u64::from(totals[k]) + u64::from(rank(words[k], place)) + 1)
}

// The last total below a number, sought from the end: totals that no text made may go up and down.
fn last_below(totals: &[u32], number: u64) -> Option<usize>
    ensures { result ≡ last_below number totals.now (length totals.now) }
{
    totals.iter().rposition(|total| u64::from(*total) < number)
}

// Where a line starts in a text of this length, by any words and totals. Line 1 starts at 0, and another behind the newline before it, which is
// sought in the last word whose total is below that newline's number.
pub fn start_of(
    length: usize,
    words: &[u64],
    totals: &[u32],
    line: u64,
) -> Result<usize, IndexError>
    ensures { result ≡ start_of length words.now totals.now line }
{
    admit(length, words, totals)?;
    let newline = line.checked_sub(1).ok_or(IndexError::NoLine)?;
    if newline == 0 {
        return Ok(0);
    }
    let count = length / bits::COUNT + 1;
    let k = last_below(&totals[..count], newline).ok_or(IndexError::NoLine)?;
    let before = newline - u64::from(totals[k]) - 1;
    let bit = bits::select(words[k], before).ok_or(IndexError::NoLine)?;
    Ok(k * bits::COUNT + bit + 1)
}

// The number of an answer: 0, or that of the refusal.
pub fn number_of<T: Drop>(answer: Result<T, IndexError>) -> u32
    ensures { result ≡ index_number answer }
{
    match answer {
        Ok(_) => 0,
        Err(IndexError::TooLong) => 30,
        Err(IndexError::Beyond) => 31,
        Err(IndexError::NoLine) => 32,
        Err(IndexError::NoRoom) => 33,
    }
}

// What an answer has, as a number: a line, or the place where one starts. An index that was built has none, which is 0.
pub trait IndexValue {
    ghost value: { Self → ℕ };

    fn value(self) -> u64
        ensures { result ≡ value self };
}

impl IndexValue for u64 {
    ghost value = { λ line. line };

    fn value(self) -> u64 {
        self
    }
}

impl IndexValue for usize {
    ghost value = { λ place. place };

    fn value(self) -> u64 {
        self as u64
    }
}

impl IndexValue for () {
    ghost value = { λ _. 0 };

    fn value(self) -> u64 {
        0
    }
}

// The line, or the place where it starts; 0 where the answer has neither.
pub fn value_of<T: IndexValue>(answer: Result<T, IndexError>) -> u64
    ensures { result ≡ index_value_by T.value answer }
{
    match answer {
        Ok(x) => x.value(),
        Err(_) => 0,
    }
}
