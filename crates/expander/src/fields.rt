// Numbers of 8 or of 16 bits, packed in the words that stand from a place on, the least first.
ghost use Rattle.std.specs.Prelude.{◌≡◌, ◌+◌, ◌/◌, ◌^◌, ◌<◌, length};
ghost use Rattle.expander.specs.Fields.{IsWidth, field_at, FieldPut};

// Number i.
pub(crate) fn get<const WIDTH: usize>(words: &[u32], start: usize, i: usize) -> u32
    requires width { IsWidth WIDTH }
    requires in_bounds { start + i / (32 / WIDTH) < length words.now }
    ensures { (result ≡ field_at WIDTH start words.now i) × (result < 2 ^ WIDTH) }
{
    let per = 32 / WIDTH;
    let word = words[start + i / per];
    let bits = WIDTH * (i % per);
    (word >> bits) % (1 << WIDTH)
}

// Number i becomes x.
pub(crate) fn put<const WIDTH: usize>(words: &mut [u32], start: usize, i: usize, x: u32)
    requires width { IsWidth WIDTH }
    requires in_bounds { start + i / (32 / WIDTH) < length words.old }
    requires x_fits { x < 2 ^ WIDTH }
    ensures { FieldPut WIDTH start words.old i x words.new }
{
    let per = 32 / WIDTH;
    let at = start + i / per;
    let word = words[at];
    let bits = WIDTH * (i % per);
    let unit = 1u32 << bits;
    let old = (word >> bits) % (1 << WIDTH);
    words[at] = word - old * unit + x * unit;
}
