// The definitions in force: name and text by turns as packed strings of buffer 3, in order of arrival, with a byte for each that says whether it is a
// text or a predefined meaning, those of each bucket in a chain, and a mask with a bit for each predefined name that keeps its own meaning.
ghost use Rattle.std.specs.Prelude.{◌≡◌, ℕ, ◌+◌, ◌*◌, ◌^◌, ◌<◌, ◌≤◌, true, List, [], length, slice_index_or, None};
ghost use Rattle.rules.specs.Bytes.{Bytes};
ghost use Rattle.rules.specs.Table.{Definition, Table, keeps_own, own_meaning, own_lost, newest_place, meaning_of, text, pushed, defined, popped, without, undefined, table_cost};
ghost use Rattle.hashing.specs.Hashing.{bucket_of};
ghost use Rattle.builtins.specs.Numbers.{candidate_in};
ghost use Rattle.expander.specs.Buckets.{InBucket};
ghost use Rattle.expander.specs.Table.{rows, meaning_text, meaning_number, Numbered, new_meaning, DefinitionsIn, ValidDefinitions, SomeDefinitions, TableIn, visited_at, Finds, Sifted};
ghost use Rattle.expander.specs.Limits.{bucket_count, table_ends_length};
ghost use Rattle.expander.specs.declared.packed.Packed.{Packed as Strings};

use crate::limits::HEADS;
use crate::packed::Packed;
use crate::{buckets, meanings, packed};
use std::ops::ControlFlow;

// What a name means: the predefined macro of a number, nothing, or the text of the definition at a place. (In this order the run's loop came out cheapest.)
// No Option of the first and the last, since each of the three is met by an arm of its own.
#[derive(Clone, Copy)]
pub(crate) enum Meaning {
    Predefined(u8),
    Undefined,
    Text(usize),
}

// The meaning that a name gets: a text, or that of the predefined macro of a number.
#[derive(Clone, Copy)]
pub(crate) enum NewMeaning<'a> {
    Text(&'a [u8]),
    Predefined(u8),
}

impl<'a> NewMeaning<'a> {
    // Its text; a predefined meaning has none.
    pub(crate) fn text(self) -> &'a [u8]
        ensures { result.now ≡ meaning_text (new_meaning self.entry) }
    {
        match self {
            NewMeaning::Text(s) => s,
            NewMeaning::Predefined(_) => &[],
        }
    }

    // Its byte beside the definition.
    fn number(self) -> u8
        ensures { result ≡ meaning_number (new_meaning self.entry) }
    {
        match self {
            NewMeaning::Text(_) => 0,
            NewMeaning::Predefined(k) => k,
        }
    }
}

// A table: its packed strings and its mask.
#[derive(Clone, Copy)]
pub(crate) struct Definitions {
    pub(crate) packed: Packed,
    pub(crate) own: u32,
}

// The k-th predefined name keeps its own meaning: its bit, by a shift and a remainder, as the book has it.
fn keeps_own(own: u32, number: u8) -> bool
    requires { (0 < number) × (number ≤ 32) }
    ensures { result ≡ keeps_own number own }
{
    let bit = number - 1;
    (own >> bit) % 2 == 1
}

// The mask once the name's own meaning is gone.
fn own_lost(own: u32, name: &[u8]) -> u32
    ensures { result ≡ own_lost name.now own }
{
    match builtins::number_of(name) {
        Some(k) if keeps_own(own, k) => own - (1 << (k - 1)),
        _ => own,
    }
}

// The name's own meaning; the predefined name that has its bucket has the number `candidate`.
fn own_meaning(own: u32, name: &[u8], candidate: Option<u8>) -> Meaning
    requires { candidate ≡ candidate_in (bucket_of name.now) }
    ensures { (ds : List Definition) → Finds ds (own_meaning name.now own) result }
{
    match builtins::confirmed(name, candidate) {
        Some(k) if keeps_own(own, k) => Meaning::Predefined(k),
        _ => Meaning::Undefined,
    }
}

// The place of the newest definition of a name, by the plain search through all definitions.
pub(crate) fn newest_plain(bytes: &[u8], ends: &[u32], packed: Packed, name: &[u8]) -> Option<usize>
    requires { ValidDefinitions bytes.now ends.now packed }
    ensures { (ds : List Definition) → DefinitionsIn bytes.now ends.now packed ds → result ≡ newest_place name.now ds }
{
    let n = packed.count / 2;
    for at in (0..n).rev() {
        let k = 2 * at;
        if packed::is_string(bytes, ends, k, name) {
            return Some(at);
        }
    }
    None
}

// One step of a search through the bucket of a name, which has come to a definition of this bucket, at the place below `left`: it is of the name, and its
// place ends the search, or else this goes on at the next older one of the bucket, told as its place and one; 0 where there is none.
fn visit(bytes: &[u8], ends: &[u32], name: &[u8], left: usize) -> ControlFlow<usize, usize>
    requires some_definitions { SomeDefinitions bytes.now ends.now }
    requires in_bucket { (p : Strings) (ds : List Definition) → DefinitionsIn bytes.now ends.now p ds → InBucket (bucket_of name.now) ds left }
    ensures { (p : Strings) (ds : List Definition) → DefinitionsIn bytes.now ends.now p ds → result ≡ visited_at name.now ds left }
{
    let at = left - 1;
    if packed::is_string(bytes, ends, 2 * at, name) {
        return ControlFlow::Break(at);
    }
    ControlFlow::Continue(buckets::link_at(ends, at))
}

// The place of the newest definition of a name of a bucket: of all definitions only those of the bucket are looked at, the newest first.
fn newest_in(bytes: &[u8], ends: &[u32], name: &[u8], bucket: usize) -> Option<usize>
    requires some_definitions { SomeDefinitions bytes.now ends.now }
    requires bucket_value { bucket ≡ bucket_of name.now }
    ensures { (p : Strings) (ds : List Definition) → DefinitionsIn bytes.now ends.now p ds → result ≡ newest_place name.now ds }
{
    let mut left = buckets::head_at(ends, bucket);
    // The links tell the places one by one, so no iterator goes over them.
    while 0 < left {
        match visit(bytes, ends, name, left) {
            ControlFlow::Break(at) => {
                return Some(at);
            }
            ControlFlow::Continue(next) => {
                left = next;
            }
        }
    }
    None
}

// The place of the newest definition of a name.
pub(crate) fn newest(bytes: &[u8], ends: &[u32], packed: Packed, name: &[u8]) -> Option<usize>
    requires { ValidDefinitions bytes.now ends.now packed }
    ensures { (ds : List Definition) → DefinitionsIn bytes.now ends.now packed ds → result ≡ newest_place name.now ds }
{
    newest_in(bytes, ends, name, hashing::bucket_of(name))
}

// What a name of a bucket means: its newest definition, a text or a predefined meaning, else its own meaning.
fn look_up_in(bytes: &[u8], ends: &[u32], own: u32, name: &[u8], bucket: usize) -> Meaning
    requires some_definitions { SomeDefinitions bytes.now ends.now }
    requires bucket_value { bucket ≡ bucket_of name.now }
    ensures { (p : Strings) (t : Table) → TableIn bytes.now ends.now p own t → Finds t.definitions (meaning_of name.now t) result }
{
    let place = newest_in(bytes, ends, name, bucket);
    match place {
        Some(i) => {
            let number = meanings::number_at(ends, i);
            if number == 0 {
                return Meaning::Text(i);
            }
            Meaning::Predefined(number)
        }
        None => own_meaning(own, name, buckets::candidate_at(ends, bucket)),
    }
}

// What a name means.
pub(crate) fn look_up(bytes: &[u8], ends: &[u32], packed: Packed, own: u32, name: &[u8]) -> Meaning
    requires { ValidDefinitions bytes.now ends.now packed }
    ensures { (t : Table) → TableIn bytes.now ends.now packed own t → Finds t.definitions (meaning_of name.now t) result }
{
    look_up_in(bytes, ends, own, name, hashing::bucket_of(name))
}

// No definition is in a bucket. (That there is none at all is asked first, or the compiler would keep the count in memory for the whole run.)
fn none_in(ends: &[u32], packed: Packed, bucket: usize) -> bool
    requires { (length ends.now ≡ table_ends_length) × (bucket < bucket_count) }
    ensures { result ≡ true → (bytes : Bytes) (ds : List Definition) (w : Bytes) → DefinitionsIn bytes ends.now packed ds → bucket_of w ≡ bucket → newest_place w ds ≡ None }
{
    if packed.count == 0 {
        return true;
    }
    buckets::head_at(ends, bucket) == 0
}

// No name of a bucket means anything.
pub(crate) fn nothing_in(ends: &[u32], bucket: usize) -> bool
    requires { (length ends.now ≡ table_ends_length) × (bucket < bucket_count) }
    ensures { result ≡ true → (bytes : Bytes) (p : Strings) (own : ℕ) (t : Table) (w : Bytes) → TableIn bytes ends.now p own t → bucket_of w ≡ bucket → meaning_of w t ≡ None }
{
    ends[HEADS + bucket] == 0
}

// What a name of a bucket means, for the run's loop: its own meaning at once where no definition is in the bucket.
pub(crate) fn meaning_of(
    bytes: &[u8],
    ends: &[u32],
    packed: Packed,
    own: u32,
    name: &[u8],
    bucket: usize,
) -> Meaning
    requires valid_definitions { ValidDefinitions bytes.now ends.now packed }
    requires bucket_value { bucket ≡ bucket_of name.now }
    ensures { (t : Table) → TableIn bytes.now ends.now packed own t → Finds t.definitions (meaning_of name.now t) result }
{
    if none_in(ends, packed, bucket) {
        return own_meaning(own, name, buckets::candidate_at(ends, bucket));
    }
    look_up_in(bytes, ends, own, name, bucket)
}

// How many bytes the definitions have once a name, whose newest definition is at `place`, means a text of n bytes.
pub(crate) fn size_defined(
    bytes: &[u8],
    ends: &[u32],
    packed: Packed,
    place: Option<usize>,
    name: &[u8],
    n: usize,
) -> usize
    requires valid_definitions { ValidDefinitions bytes.now ends.now packed }
    requires ds_value { (ds : List Definition) → DefinitionsIn bytes.now ends.now packed ds → place ≡ newest_place name.now ds }
    requires n_len_bound { length name.now + n < 2 ^ 32 }
    ensures { (t : Table) (x : Bytes) → DefinitionsIn bytes.now ends.now packed t.definitions → length x ≡ n → result ≡ table_cost (defined name.now (text x) t).definitions }
{
    let used = packed.used;
    match place {
        Some(i) => {
            let k = 2 * i + 1;
            let old = packed::string(bytes, ends, packed, k);
            used - old.len() + n
        }
        None => used + (name.len() + n),
    }
}

impl Packed {
    // A pass comes to a definition, whose name ends at `middle`: it is put behind those kept, unless it is of the name.
    fn sift(
        self,
        bytes: &mut [u8],
        ends: &mut [u32],
        from: usize,
        middle: usize,
        end: usize,
        name: &[u8],
    ) -> Packed
        requires used_le_from { (self.used ≤ from) × (from ≤ middle) × (middle ≤ end) × (end ≤ length bytes.old) }
        requires count_in_bounds { (self.count + 2 ≤ length ends.old) × (length bytes.old < 2 ^ 32) }
        ensures { Sifted name.now bytes.old ends.old self from middle end bytes.new ends.new result }
    {
        if ascii::same(name, &bytes[from..middle]) {
            return self;
        }
        let at = self.count;
        let next = at + 1;
        let count = at + 2;
        let to = self.used;
        let name_end = to + (middle - from);
        let text_end = to + (end - from);
        packed::move_bytes(bytes, to, from, end);
        ends[at] = name_end as u32;
        ends[next] = text_end as u32;
        Packed {
            count,
            used: text_end,
        }
    }

    // Without the definitions of a name: one pass, in which what is kept moves down, and one that makes the chains anew. The byte of each goes to the place
    // that it has if it is kept; that place is free where it is not.
    fn drop_named(self, bytes: &mut [u8], ends: &mut [u32], name: &[u8]) -> Packed
        requires { ValidDefinitions bytes.old ends.old self }
        ensures { (ds : List Definition) → DefinitionsIn bytes.old ends.old self ds → DefinitionsIn bytes.new ends.new result (without name.now ds) }
    {
        let count = self.count;
        let mut kept = Packed { count: 0, used: 0 };
        let mut from = 0;
        for i in 0..count / 2 {
            let number = meanings::number_at(ends, i);
            meanings::put(ends, kept.count / 2, number);
            let k = 2 * i;
            let middle = ends[k] as usize;
            let end = ends[k + 1] as usize;
            kept = kept.sift(bytes, ends, from, middle, end, name);
            from = end;
        }
        buckets::rebuild(bytes, ends, kept);
        kept
    }
}

impl Definitions {
    // A new definition, which arrives last.
    pub(crate) fn push(
        self,
        bytes: &mut [u8],
        ends: &mut [u32],
        name: &[u8],
        new: NewMeaning,
    ) -> Definitions
        requires valid_definitions { ValidDefinitions bytes.old ends.old self.packed }
        requires name_nonzero { 0 < length name.now }
        requires new_in_bounds { self.packed.used + (length name.now + length (meaning_text (new_meaning new))) ≤ length bytes.old }
        ensures { (t : Table) → Numbered (new_meaning new.entry) → TableIn bytes.old ends.old self.packed self.own t → TableIn bytes.new ends.new result.packed result.own (pushed name.now (new_meaning new.entry) t) }
    {
        let own = self.own;
        let place = self.packed.count / 2;
        let number = new.number();
        let named = self.packed.push_string(bytes, ends, name);
        let packed = named.push_string(bytes, ends, new.text());
        meanings::put(ends, place, number);
        buckets::join(ends, hashing::bucket_of(name), place);
        Definitions { packed, own }
    }

    // A name gets a meaning: its newest definition, at `place`, is replaced in its place, else a new one arrives last.
    pub(crate) fn define_at(
        self,
        bytes: &mut [u8],
        ends: &mut [u32],
        place: Option<usize>,
        name: &[u8],
        new: NewMeaning,
    ) -> Definitions
        requires valid_definitions { ValidDefinitions bytes.old ends.old self.packed }
        requires ds_value { (ds : List Definition) → DefinitionsIn bytes.old ends.old self.packed ds → place ≡ newest_place name.now ds }
        requires name_nonzero { 0 < length name.now }
        requires t_in_bounds { (t : Table) → DefinitionsIn bytes.old ends.old self.packed t.definitions → table_cost (defined name.now (text (meaning_text (new_meaning new))) t).definitions ≤ length bytes.old }
        ensures { (t : Table) → Numbered (new_meaning new.entry) → TableIn bytes.old ends.old self.packed self.own t → TableIn bytes.new ends.new result.packed result.own (defined name.now (new_meaning new.entry) t) }
    {
        let own = self.own;
        match place {
            Some(i) => {
                let k = 2 * i + 1;
                let number = new.number();
                let packed = self.packed.replace(bytes, ends, k, new.text());
                meanings::put(ends, i, number);
                Definitions { packed, own }
            }
            None => {
                let packed = self.packed;
                let lost = own_lost(own, name);
                let less = Definitions { packed, own: lost };
                less.push(bytes, ends, name, new)
            }
        }
    }

    // A name gets the text of definition `from`, in the same way. (The text stands in the buffer that is written, so it is told by its place and not lent.)
    pub(crate) fn copy_at(
        self,
        bytes: &mut [u8],
        ends: &mut [u32],
        place: Option<usize>,
        name: &[u8],
        from: usize,
    ) -> Definitions
        requires valid_definitions { ValidDefinitions bytes.old ends.old self.packed }
        requires ds_value { (ds : List Definition) → DefinitionsIn bytes.old ends.old self.packed ds → place ≡ newest_place name.now ds }
        requires name_nonzero { (0 < length name.now) × (2 * from + 1 < self.packed.count) }
        requires t_in_bounds { (t : Table) → DefinitionsIn bytes.old ends.old self.packed t.definitions → table_cost (defined name.now (text (slice_index_or (rows t.definitions) (2 * from + 1) [])) t).definitions ≤ length bytes.old }
        ensures { (t : Table) → TableIn bytes.old ends.old self.packed self.own t → TableIn bytes.new ends.new result.packed result.own (defined name.now (text (slice_index_or (rows t.definitions) (2 * from + 1) [])) t) }
    {
        let own = self.own;
        let source = 2 * from + 1;
        match place {
            Some(i) => {
                let k = 2 * i + 1;
                let packed = self.packed.copy_over(bytes, ends, k, source);
                meanings::put(ends, i, 0);
                Definitions { packed, own }
            }
            None => {
                let lost = own_lost(own, name);
                let last = self.packed.count / 2;
                let named = self.packed.push_string(bytes, ends, name);
                let packed = named.push_copy(bytes, ends, source);
                meanings::put(ends, last, 0);
                buckets::join(ends, hashing::bucket_of(name), last);
                Definitions { packed, own: lost }
            }
        }
    }

    // Without a name's newest definition, else without its own meaning.
    pub(crate) fn pop(self, bytes: &mut [u8], ends: &mut [u32], name: &[u8]) -> Definitions
        requires { ValidDefinitions bytes.old ends.old self.packed }
        ensures { (t : Table) → TableIn bytes.old ends.old self.packed self.own t → TableIn bytes.new ends.new result.packed result.own (popped name.now t) }
    {
        let own = self.own;
        let bucket = hashing::bucket_of(name);
        let place = newest_in(bytes, ends, name, bucket);
        match place {
            Some(i) => {
                let k = 2 * i;
                let n = self.packed.count / 2;
                let packed = self.packed.remove_two(bytes, ends, k);
                meanings::close_up(ends, i, n);
                buckets::leave(bytes, ends, packed, bucket, i);
                Definitions { packed, own }
            }
            None => {
                let packed = self.packed;
                let lost = own_lost(own, name);
                Definitions { packed, own: lost }
            }
        }
    }

    // Without all definitions of a name and without its own meaning.
    pub(crate) fn undefine(self, bytes: &mut [u8], ends: &mut [u32], name: &[u8]) -> Definitions
        requires { ValidDefinitions bytes.old ends.old self.packed }
        ensures { (t : Table) → TableIn bytes.old ends.old self.packed self.own t → TableIn bytes.new ends.new result.packed result.own (undefined name.now t) }
    {
        let packed = self.packed.drop_named(bytes, ends, name);
        let own = own_lost(self.own, name);
        Definitions { packed, own }
    }
}
