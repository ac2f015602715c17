// The strings that are the arguments of a closed call. (The methods stand in `arguments`: their clauses cite definitions that name this struct.)
ghost use Rattle.expander.specs.Held.{Held};

use crate::packed::Packed;

// Of packed strings of buffer 2, with their bytes and ends, those from `base` on. They stay where they are until the next call is opened.
#[derive(Clone, Copy)]
pub(crate) struct Arguments<'a> {
    pub(crate) bytes: &'a [u8],
    pub(crate) ends: &'a [u32],
    pub(crate) strings: Packed,
    pub(crate) base: usize,
    ghost held: { Held bytes.now ends.now strings base },
}
