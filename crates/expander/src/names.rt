// A name ahead: what it means, and a copy of it.
ghost use Rattle.expander.specs.Limits.{most_lent};
ghost use Rattle.expander.specs.Table.{Finds};
ghost use Rattle.std.specs.Prelude.{◌≡◌, ◌<◌, ◌≤◌, ◌++◌, length, take, drop};
ghost use Rattle.rules.specs.State.{State};
ghost use Rattle.rules.specs.Run.{Setting};
ghost use Rattle.rules.specs.Source.{ahead};
ghost use Rattle.expander.specs.Machine.{Memory, Represents, Valid, Reach, ahead_of, bytes_ahead, text_at, pending_at, definitions_at};
ghost use Rattle.rules.specs.Table.{meaning_of};
ghost use Rattle.hashing.specs.Hashing.{bucket_of};

use crate::machine::Machine;
use crate::source::Position;
use crate::table;
use crate::table::Meaning;

// The first n bytes ahead are copied to the front of `scratch`.
pub(crate) fn copy_name(text: &[u8], pending: &[u8], p: Position, n: usize, scratch: &mut [u8])
    requires { (p.from ≤ length pending.now) × (p.taken ≤ length text.now) × (n ≤ ahead_of text.now pending.now p) × (n ≤ length scratch.old) }
    ensures { take n scratch.new ≡ take n (drop p.from pending.now ++ drop p.taken text.now) }
{
    p.ahead(text, pending).copy_to(0, &mut scratch[..n]);
}

// The first n bytes ahead as one slice, so that they are looked up at one place: where they lie, or a copy in `scratch` if they cross from pending text into
// the input; fewer bytes if that has no room.
fn name_ahead<'a>(
    text: &'a [u8],
    pending: &'a [u8],
    p: Position,
    n: usize,
    scratch: &'a mut [u8],
) -> &'a [u8]
    requires { (p.from ≤ length pending.now) × (p.taken ≤ length text.now) × (n ≤ ahead_of text.now pending.now p) }
    ensures is { n ≤ length result.now → result.now ≡ take n (bytes_ahead text.now pending.now p) }
    ensures fewer { length result.now < n → length scratch.old < n }
{
    let from = p.from;
    let taken = p.taken;
    let have = pending.len() - from;
    if have == 0 {
        let to = taken + n;
        return &text[taken..to];
    }
    if n <= have {
        let to = from + n;
        return &pending[from..to];
    }
    if scratch.len() < n {
        return &text[..0];
    }
    copy_name(text, pending, p, n, scratch);
    let copy: &[u8] = scratch;
    &copy[..n]
}

// What the name of n bytes ahead, of this bucket, means. One that is longer than every buffer means nothing.
pub(crate) fn meaning_ahead<'a>(
    text: &'a [u8],
    pending: &'a [u8],
    definitions: &[u8],
    table_ends: &[u32],
    scratch: &mut [u8],
    m: Machine,
    n: usize,
    bucket: usize,
) -> Meaning
    requires valid { Valid (λ b. text_at text.now (pending_at pending.now (definitions_at definitions.now table_ends.now b))) m }
    requires reach { Reach text.now pending.now m.source 0 n n }
    requires bucket_value { bucket ≡ bucket_of (take n (bytes_ahead text.now pending.now m.source)) }
    requires scratch_len { length scratch.old ≡ most_lent }
    ensures { (a : Setting) (s : State) (b : Memory) → Represents a (text_at text.now (pending_at pending.now (definitions_at definitions.now table_ends.now b))) m s → Finds s.table.definitions (meaning_of (take n (ahead s.source)) s.table) result }
{
    if table::nothing_in(table_ends, bucket) {
        return Meaning::Undefined;
    }
    let name = name_ahead(text, pending, m.source, n, scratch);
    if name.len() < n {
        return Meaning::Undefined;
    }
    let packed = m.table.packed;
    let own = m.table.own;
    table::meaning_of(definitions, table_ends, packed, own, name, bucket)
}
