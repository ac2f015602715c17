// Reading a token off the text ahead.
ghost use Rattle.std.specs.Prelude.{◌≡◌, ◌+◌, ◌^◌, ◌<◌, ◌≤◌, true, ◌++◌, length, drop, slice_index};
ghost use Rattle.rules.specs.Bytes.{same_bytes, begins_name};
ghost use Rattle.rules.specs.Marks.{mark_text, mark_texts, newline_mark};
ghost use Rattle.rules.specs.Tokens.{begins_with, at_mark, comment_to_end, read_token};
ghost use Rattle.hashing.specs.Hashing.{ScannedFrom};
ghost use Rattle.expander.specs.Source.{bytes_of};
ghost use Rattle.expander.specs.Tokens.{FullMark, GoodMarks, MarkLength, FirstByte, comment_ending_at, comment_from, quoted_from, Inside, Passed, plain_read, Within, NameHashed};

use crate::source::Ahead;
use hashing::Scanned;
use rules::{Mark, Marks, Reading, Token};

// So many quotes are open at a place.
#[derive(Clone, Copy)]
struct Open {
    depth: usize,
    place: usize,
}

// What was read, and of a name the hash; of another token the hash says nothing.
#[derive(Clone, Copy)]
pub(crate) struct Read {
    pub(crate) reading: Reading,
    pub(crate) hash: u32,
}

fn mark_length(m: Mark) -> usize
    requires { m.len ≤ 5 }
    ensures { MarkLength m result }
{
    m.len as usize
}

fn first_byte(m: Mark) -> u8
    requires { FullMark m }
    ensures { FirstByte m result }
{
    m.bytes[0]
}

// The mark is a single newline.
fn is_newline(m: Mark) -> bool
    requires { FullMark m }
    ensures { result ≡ same_bytes (mark_text m) newline_mark }
{
    if mark_length(m) != 1 {
        return false;
    }
    first_byte(m) == b'\n'
}

// The mark stands at the place i.
fn mark_at(m: Mark, ahead: Ahead<'_>, i: usize) -> bool
    requires { (m.len ≤ 5) × (i ≤ length (bytes_of ahead)) }
    ensures { result ≡ begins_with (mark_text m) (drop i (bytes_of ahead.entry)) }
{
    let len = mark_length(m);
    if ahead.len() - i < len {
        return false;
    }
    for k in 0..len {
        let x = ahead.byte(i + k);
        if m.bytes[k] != x {
            return false;
        }
    }
    true
}

// The mark is not empty and stands at the place i. The byte there is x, which settles most cases.
fn stands(m: Mark, x: u8, ahead: Ahead<'_>, i: usize) -> bool
    requires { (m.len ≤ 5) × (i ≤ length (bytes_of ahead)) × (x ≡ slice_index (bytes_of ahead) i) }
    ensures { result ≡ at_mark (mark_text m) (drop i (bytes_of ahead.entry)) }
{
    if m.len == 0 {
        return false;
    }
    if m.bytes[0] != x {
        return false;
    }
    if m.len == 1 {
        return i < ahead.len();
    }
    mark_at(m, ahead, i)
}

// What is open behind the mark or the byte at i. The end mark is tried first, then the begin mark, which nests.
fn passed(begin: Mark, end: Mark, ahead: Ahead<'_>, i: usize, depth: usize) -> Open
    requires { Inside begin end (bytes_of ahead) i depth }
    ensures { Passed (mark_text begin) (mark_text end) (bytes_of ahead.entry) i depth result }
{
    let x = ahead.byte(i);
    if stands(end, x, ahead, i) {
        let place = i + mark_length(end);
        return Open {
            depth: depth - 1,
            place,
        };
    }
    if stands(begin, x, ahead, i) {
        let place = i + mark_length(begin);
        return Open {
            depth: depth + 1,
            place,
        };
    }
    Open {
        depth,
        place: i + 1,
    }
}

// A quoted text, whose begin mark stands ahead.
fn read_quoted(begin: Mark, end: Mark, ahead: Ahead<'_>) -> Reading
    requires { FullMark begin × FullMark end }
    ensures { result ≡ quoted_from (mark_text begin) (mark_text end) (bytes_of ahead.entry) 1 (length (mark_text begin)) }
{
    let n = ahead.len();
    let a = first_byte(begin);
    let b = first_byte(end);
    let text = mark_length(begin);
    let mut depth: usize = 1;
    let mut i = text;
    // The place moves on by whole marks, so no range fits.
    while i < n {
        let at = ahead.next_either(i, a, b);
        let open = passed(begin, end, ahead, at, depth);
        depth = open.depth;
        i = open.place;
        if depth == 0 {
            let text_end = i - mark_length(end);
            return Reading::Is(Token::Quoted {
                text,
                text_end,
                end: i,
            });
        }
    }
    Reading::OpenQuote(depth)
}

// Where a comment ends that no end mark closes: with the bytes ahead if the end mark is a newline, else beyond them.
fn end_without_mark(end: Mark, ahead: usize) -> usize
    requires { FullMark end × (ahead + 1 < 2 ^ 64) }
    ensures { comment_ending_at ahead result ≡ comment_to_end (mark_text end) ahead }
{
    let beyond = ahead + 1;
    if is_newline(end) {
        return ahead;
    }
    beyond
}

// Where a comment ends, whose end mark is sought from a place inside it on; beyond the text ahead if it does not end there.
// An Option takes one to two of a hundred instructions more where calls are read.
fn comment_end(end: Mark, ahead: Ahead<'_>, from: usize) -> usize
    requires { FullMark end }
    ensures { comment_ending_at (length (bytes_of ahead.entry)) result ≡ comment_from (mark_text end) (bytes_of ahead.entry) from }
{
    let n = ahead.len();
    let a = first_byte(end);
    let mut i = from;
    // The place moves on to where the end mark may stand, so no range fits.
    while i < n {
        let at = ahead.next_either(i, a, a);
        if mark_at(end, ahead, at) {
            return at + mark_length(end);
        }
        i = at + 1;
    }
    end_without_mark(end, n)
}

// A comment, whose begin mark stands ahead.
fn read_comment(begin: Mark, end: Mark, ahead: Ahead<'_>) -> Reading
    requires { (begin.len ≤ 5) × FullMark end }
    ensures { result ≡ comment_from (mark_text end) (bytes_of ahead.entry) (length (mark_text begin)) }
{
    let behind = comment_end(end, ahead, mark_length(begin));
    if ahead.len() < behind {
        return Reading::OpenComment;
    }
    Reading::Is(Token::Comment { end: behind })
}

// The name ahead, which its first byte x begins: where it ends, and its hash. The slice in which it begins is scanned from its second byte on, and only a name that
// reaches the end of `front` goes on in `rest`.
fn scan_name(x: u8, ahead: Ahead<'_>) -> Scanned
    requires { (x ≡ slice_index (bytes_of ahead) 0) × (begins_name x ≡ true) }
    ensures { ScannedFrom (bytes_of ahead.entry) 0 0 result }
{
    let front = ahead.front;
    let rest = ahead.rest;
    let s = if front.len() == 0 { rest } else { front };
    let n = hashing::scan_name(s, 1, hashing::hash_on(0, x));
    if n.end < s.len() {
        return n;
    }
    if front.len() == 0 {
        return n;
    }
    let k = hashing::scan_name(rest, 0, n.hash);
    Scanned {
        end: n.end + k.end,
        hash: k.hash,
    }
}

// A name or a single byte; the first byte ahead is x.
fn read_plain(x: u8, ahead: Ahead<'_>) -> Read
    requires { x ≡ slice_index (bytes_of ahead) 0 }
    ensures read { result.reading ≡ plain_read (bytes_of ahead.entry) }
    ensures hashed { NameHashed (bytes_of ahead.entry) result.reading result.hash }
{
    if ascii::begins_name(x) {
        let n = scan_name(x, ahead);
        return Read {
            reading: Reading::Is(Token::Name { end: n.end }),
            hash: n.hash,
        };
    }
    Read {
        reading: Reading::Is(Token::Byte(x)),
        hash: 0,
    }
}

// The token ahead: the end, a comment, a quoted text, a name or a single byte, tried in this order.
pub(crate) fn read_token(marks: Marks, ahead: Ahead<'_>) -> Read
    requires { GoodMarks marks }
    ensures read { result.reading ≡ read_token (mark_texts marks) (bytes_of ahead.entry) }
    ensures within { Within (bytes_of ahead.entry) result.reading }
    ensures hashed { NameHashed (bytes_of ahead.entry) result.reading result.hash }
{
    if ahead.len() == 0 {
        return Read {
            reading: Reading::Is(Token::End),
            hash: 0,
        };
    }
    let begin_comment = marks.begin_comment;
    let begin_quote = marks.begin_quote;
    let x = ahead.byte(0);
    if stands(begin_comment, x, ahead, 0) {
        return Read {
            reading: read_comment(begin_comment, marks.end_comment, ahead),
            hash: 0,
        };
    }
    if stands(begin_quote, x, ahead, 0) {
        return Read {
            reading: read_quoted(begin_quote, marks.end_quote, ahead),
            hash: 0,
        };
    }
    read_plain(x, ahead)
}
