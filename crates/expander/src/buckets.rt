// The definitions of each bucket as a chain, the newest first: the head of a bucket is its newest definition, and the link of a definition is the next
// older one of its bucket. Both are stored as the place and one, so 0 ends a chain. They stand in the array of the table's ends, behind the bytes of the
// meanings: the links of two definitions in a word, the least first, then a word for each bucket. Above the 17 bits of its head this word has the
// number of the one predefined name that has the bucket, or 0: so one look at it says that no name of the bucket means anything.
ghost use Rattle.std.specs.Prelude.{◌≡◌, suc, ◌<◌, ◌≤◌, List, [], ◌∷◌, ◌++◌, length, take, drop, slice_index_or};
ghost use Rattle.rules.specs.Table.{Definition};
ghost use Rattle.hashing.specs.Hashing.{bucket_of};
ghost use Rattle.builtins.specs.Numbers.{candidate_in};
ghost use Rattle.expander.specs.Limits.{most_lent, bucket_count, meanings_start, links_start, table_ends_length};
ghost use Rattle.expander.specs.Packed.{Packs};
ghost use Rattle.expander.specs.Buckets.{link_at, head_at, Linked, Headed, Candidates, Chained};
ghost use Rattle.expander.specs.Table.{rows, blank, RowsIn};

use crate::limits::{BUCKETS, HEADS, LINKS};
use crate::packed::Packed;
use crate::{fields, packed};

// The link of definition i.
pub(crate) fn link_at(ends: &[u32], i: usize) -> usize
    requires { (length ends.now ≡ table_ends_length) × (i < most_lent) }
    ensures { result ≡ link_at ends.now i }
{
    fields::get::<16>(ends, LINKS, i) as usize
}

// The link of definition i becomes `link`.
fn put_link(ends: &mut [u32], i: usize, link: u32)
    requires { (length ends.old ≡ table_ends_length) × (i < most_lent) × (link < 65536) }
    ensures { Linked ends.old i link ends.new }
{
    fields::put::<16>(ends, LINKS, i, link);
}

// The head of a bucket. (Its 17 bits leave room for no second one, so these words are not packed as fields.)
pub(crate) fn head_at(ends: &[u32], bucket: usize) -> usize
    requires { (length ends.now ≡ table_ends_length) × (bucket < bucket_count) }
    ensures { result ≡ head_at ends.now bucket }
{
    (ends[HEADS + bucket] % 131072) as usize
}

// The number of the predefined name that has a bucket.
pub(crate) fn candidate_at(ends: &[u32], bucket: usize) -> Option<u8>
    requires { (length ends.now ≡ table_ends_length) × (bucket < bucket_count) × Candidates ends.now }
    ensures { result ≡ candidate_in bucket }
{
    let number = (ends[HEADS + bucket] / 131072) as u8;
    (number != 0).then_some(number)
}

// The head of a bucket becomes `head`.
fn put_head(ends: &mut [u32], bucket: usize, head: u32)
    requires { (length ends.old ≡ table_ends_length) × (bucket < bucket_count) × (head < 131072) }
    ensures { Headed ends.old bucket head ends.new }
{
    let at = HEADS + bucket;
    let word = ends[at];
    ends[at] = word - word % 131072 + head;
}

// Definition i, which is the newest of all, joins the chain of its bucket.
pub(crate) fn join(ends: &mut [u32], bucket: usize, i: usize)
    requires { (length ends.old ≡ table_ends_length) × (bucket < bucket_count) × (i < most_lent) × (head_at ends.old bucket ≤ i) }
    ensures chained { (ds : List Definition) (d : Definition) → i ≡ length ds → bucket ≡ bucket_of d.name → Chained ends.old ds → Chained ends.new (ds ++ (d ∷ [])) }
    ensures ends_unchanged { take links_start ends.new ≡ take links_start ends.old }
{
    let head = head_at(ends, bucket);
    let next = i + 1;
    put_link(ends, i, head as u32);
    put_head(ends, bucket, next as u32);
}

// All chains of a run without definitions, with the numbers of the predefined names.
pub(crate) fn begin(ends: &mut [u32])
    requires { length ends.old ≡ table_ends_length }
    ensures { Chained ends.new [] }
{
    for b in 0..BUCKETS {
        ends[HEADS + b] = builtins::candidate(b).unwrap_or(0) as u32 * 131072;
    }
}

// All heads become 0.
fn clear_heads(ends: &mut [u32])
    requires { (length ends.old ≡ table_ends_length) × Candidates ends.old }
    ensures { Chained ends.new [] × (take links_start ends.new ≡ take links_start ends.old) }
{
    for b in 0..BUCKETS {
        put_head(ends, b, 0);
    }
}

// All chains anew, in one pass over the definitions' names.
pub(crate) fn rebuild(bytes: &[u8], ends: &mut [u32], packed: Packed)
    requires rows_in { RowsIn ends.old packed.count bytes.now packed.used }
    requires ends_len { (length ends.old ≡ table_ends_length) × (packed.count ≤ meanings_start) × Candidates ends.old }
    ensures chained { (ds : List Definition) → Packs ends.old packed.count bytes.now packed.used (rows ds) → Chained ends.new ds }
    ensures ends_unchanged { take links_start ends.new ≡ take links_start ends.old }
{
    clear_heads(ends);
    let n = packed.count / 2;
    for i in 0..n {
        let bucket = hashing::bucket_of(packed::string(bytes, ends, packed, 2 * i));
        join(ends, bucket, i);
    }
}

// Definition i, of a bucket, has gone: where it was the newest of all, its bucket's head becomes the next older one; else those behind it have moved, and
// the chains are made anew.
pub(crate) fn leave(bytes: &[u8], ends: &mut [u32], packed: Packed, bucket: usize, i: usize)
    requires rows_in { RowsIn ends.old packed.count bytes.now packed.used }
    requires ends_len { (length ends.old ≡ table_ends_length) × (packed.count ≤ meanings_start) × Candidates ends.old × (bucket < bucket_count) × (i < most_lent) }
    ensures chained { (ds : List Definition) → i < length ds → bucket ≡ bucket_of (slice_index_or ds i blank).name → Chained ends.old ds → Packs ends.old packed.count bytes.now packed.used (rows (take i ds ++ drop (suc i) ds)) → Chained ends.new (take i ds ++ drop (suc i) ds) }
    ensures ends_unchanged { take links_start ends.new ≡ take links_start ends.old }
{
    if i == packed.count / 2 {
        let link = link_at(ends, i);
        put_head(ends, bucket, link as u32);
        return;
    }
    rebuild(bytes, ends, packed);
}
