// Corners of `first_place` and of `translit`.
use matching::TooLong;
use std::io;
use std::io::Print;

// A line: what is looked for where, and the answer.
fn place(printer: &impl Print, label: &[u8], needle: &[u8], text: &[u8]) -> io::Result<()> {
    printer.write_all(label)?;
    print!(printer; ": ")?;
    match matching::first_place(needle, text) {
        Ok(Some(n)) => println!(printer; "{n}"),
        Ok(None) => println!(printer; "nowhere"),
        Err(TooLong) => println!(printer; "too long"),
    }
}

// A needle and a text that can be read.
fn index(printer: &impl Print, needle: &[u8], text: &[u8]) -> io::Result<()> {
    printer.write_all(needle)?;
    print!(printer; " in ")?;
    place(printer, text, needle, text)
}

fn empty_places(printer: &impl Print) -> io::Result<()> {
    place(printer, b"nothing in nothing", b"", b"")?;
    place(printer, b"nothing in abc", b"", b"abc")?;
    place(printer, b"a in nothing", b"a", b"")
}

fn short_places(printer: &impl Print) -> io::Result<()> {
    index(printer, b"abc", b"ab")?;
    index(printer, b"abc", b"abc")?;
    index(printer, b"abd", b"abc")?;
    index(printer, b"a", b"banana")?;
    index(printer, b"c", b"abc")?;
    index(printer, b"bc", b"abc")
}

fn extreme_places(printer: &impl Print) -> io::Result<()> {
    place(
        printer,
        b"255 0 in 0 255 255 0",
        b"\xff\x00",
        b"\x00\xff\xff\x00",
    )?;
    place(printer, b"0 0 in 0 255 0", b"\x00\x00", b"\x00\xff\x00")?;
    place(printer, b"255 in 0 254 255", b"\xff", b"\x00\xfe\xff")
}

fn run_places(printer: &impl Print) -> io::Result<()> {
    index(printer, b"aab", b"aaab")?;
    index(printer, b"aaab", b"aaaaaab")?;
    index(printer, b"aaab", b"aabaaab")?;
    index(printer, b"aabaaac", b"aabaabaaac")
}

fn overlap_places(printer: &impl Print) -> io::Result<()> {
    index(printer, b"abab", b"aabab")?;
    index(printer, b"ababc", b"abababc")?;
    index(printer, b"ababac", b"ababababac")?;
    index(printer, b"abacabad", b"abacabacabad")?;
    index(printer, b"issip", b"mississippi")?;
    index(printer, b"ississ", b"mississippi")
}

// Needles of 64 and 65 bytes: a run of a and then b, in 150 a, a b and 49 a.
fn both_tables(printer: &impl Print) -> io::Result<()> {
    let mut text = [b'a'; 200];
    text[150] = b'b';
    let mut shorter = [b'a'; 64];
    shorter[63] = b'b';
    let mut longer = [b'a'; 65];
    longer[64] = b'b';
    place(printer, b"64 bytes", &shorter, &text)?;
    place(printer, b"65 bytes", &longer, &text)
}

fn longest_places(printer: &impl Print) -> io::Result<()> {
    let mut needle = [b'a'; 32768];
    needle[32767] = b'b';
    let mut text = [b'a'; 65535];
    place(printer, b"32767 a and b in 65535 a", &needle, &text)?;
    text[65534] = b'b';
    place(printer, b"32767 a and b in 65534 a and b", &needle, &text)
}

fn too_long_places(printer: &impl Print) -> io::Result<()> {
    let most = [b'a'; 32768];
    let more = [b'a'; 32769];
    place(printer, b"32768 a in 32769 a", &most, &more)?;
    place(printer, b"32769 a in 32769 a", &more, &more)?;
    place(printer, b"32769 a in 32768 a", &more, &most)
}

// The replaced text in brackets, or the slice as it was left.
fn write_replaced(
    printer: &impl Print,
    table: &[u16; 256],
    s: &[u8],
    out: &mut [u8],
) -> io::Result<()> {
    let fits = matching::translit(table, s, &mut *out);
    print!(printer; "{}", if fits { " [" } else { " another length [" })?;
    printer.write_all(&*out)?;
    println!(printer; "]")
}

// A line: the length of the replaced text, and that text.
fn replace_in(
    printer: &impl Print,
    from: &[u8],
    to: &[u8],
    s: &[u8],
    room: &mut [u8],
) -> io::Result<()> {
    let table = matching::partners_of(from, to);
    let n = matching::translit_length(&table, s);
    print!(printer; "{n}")?;
    match room.get_mut(..n) {
        Some(out) => write_replaced(printer, &table, s, out),
        None => Ok(()),
    }
}

fn replace(printer: &impl Print, from: &[u8], to: &[u8], s: &[u8]) -> io::Result<()> {
    let mut room = [b'*'; 16];
    replace_in(printer, from, to, s, &mut room)
}

// A slice of one byte less than the text takes its front; in one of one byte more the last byte stays.
fn other_lengths(printer: &impl Print) -> io::Result<()> {
    let table = matching::partners_of(b"abc", b"x");
    let mut shorter = [b'*'; 2];
    write_replaced(printer, &table, b"abcabc-", &mut shorter)?;
    let mut longer = [b'*'; 4];
    write_replaced(printer, &table, b"abcabc-", &mut longer)
}

fn partners(printer: &impl Print) -> io::Result<()> {
    replace(printer, b"abc", b"xyz", b"aabbcc!")?;
    replace(printer, b"ab", b"ba", b"abba")?;
    replace(printer, b"a", b"xyz", b"abc")?;
    replace(printer, b"\x00\xff", b"AB", b"\x00a\xff")
}

fn deleted(printer: &impl Print) -> io::Result<()> {
    replace(printer, b"abc", b"x", b"abcabc-")?;
    replace(printer, b"ab", b"", b"banana")?;
    replace(printer, b"\xfe\xff", b"-", b"\xff\xfea")
}

fn repeated(printer: &impl Print) -> io::Result<()> {
    replace(printer, b"aab", b"xyz", b"ab")?;
    replace(printer, b"aa", b"x", b"aaa")?;
    replace(printer, b"aba", b"xyz", b"abab")?;
    replace(printer, b"bab", b"x", b"abab")
}

fn empty_texts(printer: &impl Print) -> io::Result<()> {
    replace(printer, b"", b"xyz", b"abc")?;
    replace(printer, b"abc", b"xyz", b"")?;
    replace(printer, b"", b"", b"")
}

pub(crate) fn run(printer: &impl Print) -> io::Result<()> {
    empty_places(printer)?;
    short_places(printer)?;
    extreme_places(printer)?;
    run_places(printer)?;
    overlap_places(printer)?;
    both_tables(printer)?;
    longest_places(printer)?;
    too_long_places(printer)?;
    partners(printer)?;
    deleted(printer)?;
    repeated(printer)?;
    empty_texts(printer)?;
    other_lengths(printer)
}
