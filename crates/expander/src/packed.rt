// Byte strings packed one after the other from the front of a lent buffer, the end of each in `ends` beside it.
ghost use Rattle.std.specs.Prelude.{◌≡◌, ℕ, ◌+◌, ◌-◌, ◌^◌, ◌<◌, ◌≤◌, List, [], ◌∷◌, ◌++◌, map, length, take, drop, slice_index, slice_index_or, slice_set};
ghost use Rattle.rules.specs.Bytes.{Bytes, same_bytes};
ghost use Rattle.expander.specs.Packed.{Packs, Formed, HasString, start_of, last_more, overlaid, rebased};

use crate::buffers;

// How many strings there are, and how many bytes they have.
#[derive(Clone, Copy)]
pub(crate) struct Packed {
    pub(crate) count: usize,
    pub(crate) used: usize,
}

// Where string k starts: where the one before it ends.
pub(crate) fn start(ends: &[u32], k: usize) -> usize
    requires { k ≤ length ends.now }
    ensures { result ≡ start_of ends.now k }
{
    if k == 0 {
        return 0;
    }
    ends[k - 1] as usize
}

// String k, of however many.
fn part<'a>(bytes: &'a [u8], ends: &[u32], k: usize) -> &'a [u8]
    requires { HasString ends.now bytes.now k }
    ensures { (count used : ℕ) (ss : List Bytes) → Packs ends.now count bytes.now used ss → k < count → result.now ≡ slice_index_or ss k [] }
{
    let a = start(ends, k);
    let e = start(ends, k + 1);
    &bytes[a..e]
}

// String k.
pub(crate) fn string<'a>(bytes: &'a [u8], ends: &[u32], p: Packed, k: usize) -> &'a [u8]
    requires formed { Formed ends.now p.count bytes.now p.used }
    requires k_lt_count { k < p.count }
    ensures { (ss : List Bytes) → Packs ends.now p.count bytes.now p.used ss → result.now ≡ slice_index_or ss k [] }
{
    part(bytes, ends, k)
}

// String k is s.
pub(crate) fn is_string(bytes: &[u8], ends: &[u32], k: usize, s: &[u8]) -> bool
    requires { HasString ends.now bytes.now k }
    ensures { (count used : ℕ) (ss : List Bytes) → Packs ends.now count bytes.now used ss → k < count → result ≡ same_bytes s.now (slice_index_or ss k []) }
{
    ascii::same(s, part(bytes, ends, k))
}

// Moves the bytes from `from` up to `end` to the place `to`, and none where they stand there.
pub(crate) fn move_bytes(bytes: &mut [u8], to: usize, from: usize, end: usize)
    requires { (from ≤ end) × (end ≤ length bytes.old) × (to + (end - from) ≤ length bytes.old) }
    ensures { bytes.new ≡ overlaid to (drop from (take end bytes.old)) bytes.old }
{
    if to != from {
        bytes.copy_within(from..end, to);
    }
}

// Puts the ends from `from` up to `count` at the place `to`, each with `less` bytes before it taken out and `more` put in.
fn rebase(ends: &mut [u32], to: usize, from: usize, count: usize, less: usize, more: usize)
    requires to_le_from { (to ≤ from) × (from ≤ count) × (count ≤ length ends.old) }
    requires by_index { (j : ℕ) → from ≤ j → j < count → (less ≤ slice_index ends.old j) × (rebased less more (slice_index ends.old j) < 2 ^ 32) }
    ensures { ends.new ≡ overlaid to (map (rebased less more) (drop from (take count ends.old))) ends.old }
{
    let n = count - from;
    for j in 0..n {
        let e = ends[from + j] as usize;
        let moved = e - less + more;
        ends[to + j] = moved as u32;
    }
}

impl Packed {
    // A new string of no bytes.
    fn push_empty(self, ends: &mut [u32]) -> Packed
        requires { (self.count < length ends.old) × (self.used < 2 ^ 32) }
        ensures packs { (bytes : Bytes) (ss : List Bytes) → Packs ends.old self.count bytes self.used ss → Packs ends.new result.count bytes result.used (ss ++ ([] ∷ [])) }
        ensures count_value { (result.count ≡ self.count + 1) × (result.used ≡ self.used) × (drop (self.count + 1) ends.new ≡ drop (self.count + 1) ends.old) }
    {
        let count = self.count;
        let used = self.used;
        let more = count + 1;
        ends[count] = used as u32;
        Packed { count: more, used }
    }

    // The n bytes behind the strings, which the caller has filled, join the last one.
    fn grow_last(self, ends: &mut [u32], n: usize) -> Packed
        requires { (0 < self.count) × (self.count ≤ length ends.old) × (self.used + n < 2 ^ 32) }
        ensures packs { (before bytes : Bytes) (ss : List Bytes) (s : Bytes) → Packs ends.old self.count before self.used ss → length s ≡ n → take (self.used + n) bytes ≡ take self.used before ++ s → Packs ends.new result.count bytes result.used (last_more ss s) }
        ensures count_value { (result.count ≡ self.count) × (result.used ≡ self.used + n) × (drop self.count ends.new ≡ drop self.count ends.old) }
    {
        let count = self.count;
        let more = self.used + n;
        ends[count - 1] = more as u32;
        Packed { count, used: more }
    }

    // A slice at the end of the last string.
    fn push_slice(self, bytes: &mut [u8], ends: &mut [u32], s: &[u8]) -> Packed
        requires count_nonzero { (0 < self.count) × (self.count ≤ length ends.old) }
        requires s_in_bounds { (self.used + length s.now ≤ length bytes.old) × (length bytes.old < 2 ^ 32) }
        ensures packs { (ss : List Bytes) → Packs ends.old self.count bytes.old self.used ss → Packs ends.new result.count bytes.new result.used (last_more ss s.now) }
        ensures count_value { (result.count ≡ self.count) × (result.used ≡ self.used + length s.now) × (drop self.count ends.new ≡ drop self.count ends.old) }
    {
        buffers::fill_slice(s, bytes, self.used);
        self.grow_last(ends, s.len())
    }

    // A new string.
    pub(crate) fn push_string(self, bytes: &mut [u8], ends: &mut [u32], s: &[u8]) -> Packed
        requires count_in_bounds { self.count < length ends.old }
        requires s_in_bounds { (self.used + length s.now ≤ length bytes.old) × (length bytes.old < 2 ^ 32) }
        ensures packs { (ss : List Bytes) → Packs ends.old self.count bytes.old self.used ss → Packs ends.new result.count bytes.new result.used (ss ++ (s.now ∷ [])) }
        ensures count_value { (result.count ≡ self.count + 1) × (result.used ≡ self.used + length s.now) × (drop (self.count + 1) ends.new ≡ drop (self.count + 1) ends.old) }
    {
        let more = self.push_empty(ends);
        more.push_slice(bytes, ends, s)
    }

    // Without strings k and k + 1: what stands behind them moves down, and nothing where they are the last.
    pub(crate) fn remove_two(self, bytes: &mut [u8], ends: &mut [u32], k: usize) -> Packed
        requires formed { Formed ends.old self.count bytes.old self.used }
        requires k_bound { (k + 2 ≤ self.count) × (length bytes.old < 2 ^ 32) }
        ensures packs { (ss : List Bytes) → Packs ends.old self.count bytes.old self.used ss → Packs ends.new result.count bytes.new result.used (take k ss ++ drop (k + 2) ss) }
        ensures ends_unchanged { drop self.count ends.new ≡ drop self.count ends.old }
    {
        let count = self.count;
        let used = self.used;
        let a = start(ends, k);
        let e = start(ends, k + 2);
        let n = e - a;
        let fewer = count - 2;
        let less = used - n;
        move_bytes(bytes, a, e, used);
        rebase(ends, k, k + 2, count, n, 0);
        Packed {
            count: fewer,
            used: less,
        }
    }

    // String k gets n bytes in its place, which the caller fills: what stands behind it moves by the difference.
    fn resize(self, bytes: &mut [u8], ends: &mut [u32], k: usize, n: usize) -> Packed
        requires formed { Formed ends.old self.count bytes.old self.used }
        requires k_lt_count { (k < self.count) × (length bytes.old < 2 ^ 32) }
        requires n_in_bounds { (ss : List Bytes) → Packs ends.old self.count bytes.old self.used ss → self.used + n ≤ length bytes.old + length (slice_index_or ss k []) }
        ensures packs { (ss : List Bytes) (s : Bytes) → Packs ends.old self.count bytes.old self.used ss → length s ≡ n → Packs ends.new result.count (overlaid (start_of ends.old k) s bytes.new) result.used (slice_set ss k s) }
        ensures ends_unchanged { drop self.count ends.new ≡ drop self.count ends.old }
    {
        let count = self.count;
        let used = self.used;
        let a = start(ends, k);
        let e = start(ends, k + 1);
        let old = e - a;
        if old == n {
            return self;
        }
        let to = a + n;
        let sized = used - old + n;
        move_bytes(bytes, to, e, used);
        rebase(ends, k, k, count, old, n);
        Packed { count, used: sized }
    }

    // String k becomes s, in its place.
    pub(crate) fn replace(self, bytes: &mut [u8], ends: &mut [u32], k: usize, s: &[u8]) -> Packed
        requires formed { Formed ends.old self.count bytes.old self.used }
        requires k_lt_count { (k < self.count) × (length bytes.old < 2 ^ 32) }
        requires s_in_bounds { (ss : List Bytes) → Packs ends.old self.count bytes.old self.used ss → self.used + length s.now ≤ length bytes.old + length (slice_index_or ss k []) }
        ensures packs { (ss : List Bytes) → Packs ends.old self.count bytes.old self.used ss → Packs ends.new result.count bytes.new result.used (slice_set ss k s.now) }
        ensures ends_unchanged { drop self.count ends.new ≡ drop self.count ends.old }
    {
        let a = start(ends, k);
        let sized = self.resize(bytes, ends, k, s.len());
        buffers::fill_slice(s, bytes, a);
        sized
    }

    // String k becomes what string `from` is, in its place. (It stands in the buffer that is written, so it is told by its number and not lent to `replace`.)
    pub(crate) fn copy_over(
        self,
        bytes: &mut [u8],
        ends: &mut [u32],
        k: usize,
        from: usize,
    ) -> Packed
        requires formed { Formed ends.old self.count bytes.old self.used }
        requires k_lt_count { (k < self.count) × (from < self.count) × (length bytes.old < 2 ^ 32) }
        requires from_in_bounds { (ss : List Bytes) → Packs ends.old self.count bytes.old self.used ss → self.used + length (slice_index_or ss from []) ≤ length bytes.old + length (slice_index_or ss k []) }
        ensures packs { (ss : List Bytes) → Packs ends.old self.count bytes.old self.used ss → Packs ends.new result.count bytes.new result.used (slice_set ss k (slice_index_or ss from [])) }
        ensures ends_unchanged { drop self.count ends.new ≡ drop self.count ends.old }
    {
        if k == from {
            return self;
        }
        let a = start(ends, from);
        let e = start(ends, from + 1);
        let n = e - a;
        let sized = self.resize(bytes, ends, k, n);
        let to = start(ends, k);
        let moved = start(ends, from);
        move_bytes(bytes, to, moved, moved + n);
        sized
    }

    // A new string, what string k is. (As in `copy_over`, it can't be lent to `push_string`.)
    pub(crate) fn push_copy(self, bytes: &mut [u8], ends: &mut [u32], k: usize) -> Packed
        requires formed { Formed ends.old self.count bytes.old self.used }
        requires k_lt_count { (k < self.count) × (self.count < length ends.old) × (length bytes.old < 2 ^ 32) }
        requires k_in_bounds { (ss : List Bytes) → Packs ends.old self.count bytes.old self.used ss → self.used + length (slice_index_or ss k []) ≤ length bytes.old }
        ensures packs { (ss : List Bytes) → Packs ends.old self.count bytes.old self.used ss → Packs ends.new result.count bytes.new result.used (ss ++ (slice_index_or ss k [] ∷ [])) }
        ensures ends_unchanged { drop (self.count + 1) ends.new ≡ drop (self.count + 1) ends.old }
    {
        let a = start(ends, k);
        let e = start(ends, k + 1);
        let n = e - a;
        move_bytes(bytes, self.used, a, e);
        let more = self.push_empty(ends);
        more.grow_last(ends, n)
    }
}
