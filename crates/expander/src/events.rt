// What the token ahead calls for: a plain event moves text or opens a call; a special one ends the text, makes a call, or can't be read.
ghost use Rattle.std.specs.Prelude.{◌≡◌, ◌<◌, ◌≤◌, length, take, ◌==◌, slice_index};
ghost use Rattle.rules.specs.declared.Token.TheVariants as token;
ghost use Rattle.rules.specs.declared.Reading.TheVariants as reading;
ghost use Rattle.rules.specs.Bytes.{Bytes};
ghost use Rattle.rules.specs.State.{State};
ghost use Rattle.rules.specs.Run.{Setting};
ghost use Rattle.rules.specs.Source.{Source, ahead};
ghost use Rattle.rules.specs.Step.{act, step};
ghost use Rattle.expander.specs.Events.{EventWithin, EventIs};
ghost use Rattle.expander.specs.Machine.{Memory, Represents, Valid, Reach, ahead_of, bytes_ahead, text_at, pending_at, stack_at, definitions_at};
ghost use Rattle.expander.specs.Source.{SourceIn};
ghost use Rattle.expander.specs.Step.{HasRole, TokenWithin};
ghost use Rattle.expander.specs.Limits.{most_lent};
ghost use Rattle.expander.specs.Tokens.{NameHashed};
ghost use Rattle.hashing.specs.Hashing.{hashed};
ghost use Rattle.expander.specs.Table.{plain_unopened};
ghost use Rattle.expander.specs.declared.events.Event.TheVariants as event;
ghost use Rattle.expander.specs.declared.events.Plain.TheVariants as plain;

use crate::machine::Machine;
use crate::source::Position;
use crate::table::Meaning;
use crate::{calls, names, tokens};
use rules::{Reading, Token};

// n bytes ahead from `start` on go where text goes, and `width` bytes are taken; a byte goes to the current stream; the innermost call
// collects a byte, with so many parentheses open then; a blank is skipped; the next argument begins; a call is opened whose name is the first n bytes ahead,
// of this bucket.
#[derive(Clone, Copy)]
pub(crate) enum Plain {
    Deliver {
        start: usize,
        n: usize,
        width: usize,
    },
    Emit(u8),
    Collect {
        byte: u8,
        depth: u32,
    },
    Skip,
    Separate,
    Open {
        n: usize,
        bucket: usize,
    },
}

// Nothing is ahead; the innermost call is closed; the name of n bytes ahead is called without arguments; a quoted text or a comment does not end.
#[derive(Clone, Copy)]
pub(crate) enum Special {
    End,
    Close,
    Bare { n: usize, meaning: Meaning },
    OpenQuote,
    OpenComment,
}

#[derive(Clone, Copy)]
pub(crate) enum Event {
    Plain(Plain),
    Special(Special),
}

// The first n bytes ahead, all of the token, go where text goes.
fn whole(n: usize) -> Event
    ensures { result ≡ event.Plain (plain.Deliver 0 n n) }
{
    Event::Plain(Plain::Deliver {
        start: 0,
        n,
        width: n,
    })
}

// Whether a left parenthesis stands behind n bytes ahead.
fn opens(text: &[u8], pending: &[u8], p: Position, n: usize) -> bool
    requires { (p.from ≤ length pending.now) × (p.taken ≤ length text.now) }
    ensures { (x : Source) → SourceIn text.now pending.now p x → result ≡ (slice_index (ahead x) n == 40) }
{
    p.ahead(text, pending).byte(n) == b'('
}

// What a byte does in a call: nothing, it is collected at a depth of parentheses, it closes the call, or it ends the argument.
#[derive(Clone, Copy)]
enum Role {
    Dropped,
    Collected(u32),
    Closes,
    Separates,
}

// What the byte x does in a call with so many parentheses open in the argument, which collected a token or did not.
fn role_of(x: u8, depth: u32, collected: bool) -> Role
    requires { depth < 4294967295 }
    ensures { HasRole x depth collected result }
{
    match x {
        b'(' => Role::Collected(depth + 1),
        b')' => {
            if depth == 0 {
                return Role::Closes;
            }
            Role::Collected(depth - 1)
        }
        b',' => {
            if depth == 0 {
                return Role::Separates;
            }
            Role::Collected(depth)
        }
        _ => {
            if ascii::is_blank(x) {
                if !collected {
                    return Role::Dropped;
                }
                return Role::Collected(depth);
            }
            Role::Collected(depth)
        }
    }
}

// What the byte x ahead calls for.
fn byte_event(stack: &[u32], m: Machine, x: u8) -> Event
    requires { Valid (λ b. stack_at stack.now b) m }
    ensures within { (text pending : Bytes) → 1 ≤ ahead_of text pending m.source → EventWithin text pending m result }
    ensures is { (a : Setting) (s : State) (b : Memory) → Represents a (stack_at stack.now b) m s → step s ≡ act (token.Byte x) s → EventIs s result }
{
    if m.calls.opens == 0 {
        return Event::Plain(Plain::Emit(x));
    }
    let depth = calls::depth(stack, m.calls);
    let collected = calls::has_collected(stack, m.calls);
    match role_of(x, depth, collected) {
        Role::Dropped => Event::Plain(Plain::Skip),
        Role::Collected(d) => Event::Plain(Plain::Collect { byte: x, depth: d }),
        Role::Closes => Event::Special(Special::Close),
        Role::Separates => Event::Plain(Plain::Separate),
    }
}

// Whether a name of this meaning is plain text where no parenthesis follows. (One that means nothing is so with a parenthesis too, and
// `name_event` has asked for that before.)
fn plain_unopened(meaning: Meaning) -> bool
    ensures { result ≡ plain_unopened meaning }
{
    match meaning {
        Meaning::Text(_) => false,
        Meaning::Predefined(k) => builtins::needs_parenthesis(k),
        Meaning::Undefined => true,
    }
}

// What the name of n bytes ahead, of this hash, calls for.
fn name_event(
    text: &[u8],
    pending: &[u8],
    definitions: &[u8],
    table_ends: &[u32],
    scratch: &mut [u8],
    m: Machine,
    n: usize,
    hash: u32,
) -> Event
    requires valid { Valid (λ b. text_at text.now (pending_at pending.now (definitions_at definitions.now table_ends.now b))) m }
    requires reach { Reach text.now pending.now m.source 0 n n }
    requires hash_value { hash ≡ hashed 0 (take n (bytes_ahead text.now pending.now m.source)) }
    requires scratch_len { length scratch.old ≡ most_lent }
    ensures within { EventWithin text.now pending.now m result }
    ensures is { (a : Setting) (s : State) (b : Memory) → Represents a (text_at text.now (pending_at pending.now (definitions_at definitions.now table_ends.now b))) m s → step s ≡ act (token.Name n) s → EventIs s result }
{
    let bucket = hashing::bucket_at(hash);
    let meaning = names::meaning_ahead(
        text,
        pending,
        definitions,
        table_ends,
        scratch,
        m,
        n,
        bucket,
    );
    if let Meaning::Undefined = meaning {
        return whole(n);
    }
    if opens(text, pending, m.source, n) {
        return Event::Plain(Plain::Open { n, bucket });
    }
    if plain_unopened(meaning) {
        return whole(n);
    }
    Event::Special(Special::Bare { n, meaning })
}

// What a token calls for; a name has this hash.
fn token_event(
    text: &[u8],
    pending: &[u8],
    stack: &[u32],
    definitions: &[u8],
    table_ends: &[u32],
    scratch: &mut [u8],
    m: Machine,
    token: Token,
    hash: u32,
) -> Event
    requires valid { Valid (λ b. text_at text.now (pending_at pending.now (stack_at stack.now (definitions_at definitions.now table_ends.now b)))) m }
    requires token_within { TokenWithin text.now pending.now m.source token }
    requires name_hashed { NameHashed (bytes_ahead text.now pending.now m.source) (reading.Is token) hash }
    requires scratch_len { length scratch.old ≡ most_lent }
    ensures within { EventWithin text.now pending.now m result }
    ensures is { (a : Setting) (s : State) (b : Memory) → Represents a (text_at text.now (pending_at pending.now (stack_at stack.now (definitions_at definitions.now table_ends.now b)))) m s → step s ≡ act token s → EventIs s result }
{
    match token {
        Token::End => Event::Special(Special::End),
        Token::Comment { end } => whole(end),
        Token::Quoted {
            text: start,
            text_end,
            end,
        } => Event::Plain(Plain::Deliver {
            start,
            n: text_end - start,
            width: end,
        }),
        Token::Name { end } => {
            name_event(
                text,
                pending,
                definitions,
                table_ends,
                scratch,
                m,
                end,
                hash,
            )
        }
        Token::Byte(x) => byte_event(stack, m, x),
    }
}

// What the token ahead calls for.
pub(crate) fn event_ahead(
    text: &[u8],
    pending: &[u8],
    stack: &[u32],
    definitions: &[u8],
    table_ends: &[u32],
    scratch: &mut [u8],
    m: Machine,
) -> Event
    requires valid { Valid (λ b. text_at text.now (pending_at pending.now (stack_at stack.now (definitions_at definitions.now table_ends.now b)))) m }
    requires scratch_len { length scratch.old ≡ most_lent }
    ensures within { EventWithin text.now pending.now m result }
    ensures is { (a : Setting) (s : State) (b : Memory) → Represents a (text_at text.now (pending_at pending.now (stack_at stack.now (definitions_at definitions.now table_ends.now b)))) m s → EventIs s result }
{
    let p = m.source;
    let marks = m.marks;
    let read = tokens::read_token(marks, p.ahead(text, pending));
    let hash = read.hash;
    let reading = read.reading;
    match reading {
        Reading::OpenQuote(_) => Event::Special(Special::OpenQuote),
        Reading::OpenComment => Event::Special(Special::OpenComment),
        Reading::Is(token) => token_event(
            text,
            pending,
            stack,
            definitions,
            table_ends,
            scratch,
            m,
            token,
            hash,
        ),
    }
}
