// The bounds of a run, and the lengths of the links that follow from them. The contracts have them from specs/Limits.antt.

// Bytes of the text, and of a buffer that is lent.
pub(crate) const MOST_LENT: usize = 65536;

// Open calls, and arguments over all of them.
pub(crate) const MOST_CALLS: usize = 64;

pub(crate) const MOST_ARGUMENTS: usize = 256;

// The ends of an open call's strings, its name and its arguments, and four words for each call.
pub(crate) const CALL_ENDS: usize = MOST_CALLS + MOST_ARGUMENTS;

pub(crate) const STACK: usize = 4 * MOST_CALLS;

// The ends of name and text for each definition, which has a byte at least; behind them its meaning, of four definitions in a word; its link to the next
// older definition of its bucket, of two in a word; and a word for each bucket.
pub(crate) const MEANINGS: usize = 2 * MOST_LENT;

pub(crate) const LINKS: usize = MEANINGS + MOST_LENT / 4;

pub(crate) const HEADS: usize = LINKS + MOST_LENT / 2;

pub(crate) const BUCKETS: usize = 199;

pub(crate) const TABLE_ENDS: usize = HEADS + BUCKETS;

// The predefined macros, and the mask in which each keeps its own meaning.
const MACROS: u32 = 27;

pub(crate) const ALL_OWN: u32 = (1 << MACROS) - 1;

// Numbers as bits: the largest, the lowest, and -1.
pub(crate) const LARGEST: u32 = 2147483647;

pub(crate) const LOWEST: u32 = 2147483648;

pub(crate) const MINUS_ONE: u32 = 4294967295;
