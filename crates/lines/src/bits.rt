// The bits of one word.
ghost use Rattle.std.specs.Prelude.{◌≡◌, take};
ghost use Rattle.rules.specs.Lines.{newline_bits, select};

// So many bits, each for a byte of the text.
pub(crate) const COUNT: usize = 64;

// The word of the first 64 bytes, or of all where they are fewer. The first byte's bit is the least, so they are gone through from the last.
pub(crate) fn word_of(text: &[u8]) -> u64
    ensures { result ≡ newline_bits (take 64 text.now) }
{
    text[..COUNT.min(text.len())]
        .iter()
        .rev()
        .fold(0, |word, byte| word << 1 | u64::from(*byte == b'\n'))
}

// The place of the set bit that has `before` set bits below it. Each turn clears the least set bit.
pub(crate) fn select(word: u64, before: u64) -> Option<usize>
    ensures { result ≡ select 64 before word }
{
    if u64::from(word.count_ones()) <= before {
        return None;
    }
    let mut rest = word;
    for turn in 0..before {
        rest &= rest.wrapping_sub(1);
    }
    (0 < rest).then_some(rest.trailing_zeros() as usize)
}
