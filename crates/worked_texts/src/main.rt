// The worked texts of document 01 that are not proved of the definitions, the traps of the old box, and other texts whose outcome can be
// worked out with the rules in hand. For each: the text, what was written, the error text if there is any, and the answer: number, detail, steps, place.
#![tactic(auto)]

ghost use Rattle.std.specs.Prelude.{◌≡◌, ◌≤◌, length};

use rules::Report;
use std::io;
use std::io::Print;

// Ample room.
const MOST_LENT: usize = 65536;

const BUDGET: u32 = 16777216;

// Number, detail, steps, place.
fn write_report(printer: &impl Print, r: Report) -> io::Result<()> {
    let number = answers::number_of(r.answer);
    let detail = answers::detail_of(r.answer);
    let steps = r.steps;
    let place = r.place;
    println!(printer; "{number} {detail} {steps} {place}")
}

fn large_buffer() -> [u8; MOST_LENT]
    ensures { 65536 ≡ length result }
{
    [0; MOST_LENT]
}

// A text in given buffers, with nothing to include.
fn run(
    printer: &impl Print,
    text: &[u8],
    pending: &mut [u8],
    calls: &mut [u8],
    definitions: &mut [u8],
    streams: &mut [u8],
    wrap: &mut [u8],
    errors: &mut [u8],
    output: &mut [u8],
    budget: u32,
) -> io::Result<()> {
    let r = expander::expand(
        text,
        &[0],
        pending,
        calls,
        definitions,
        streams,
        wrap,
        errors,
        output,
        budget,
    );
    let n = r.output as usize;
    let k = r.errors as usize;
    printer.write_all(text)?;
    printer.write_all(b"\n")?;
    printer.write_all(&output[..n])?;
    if 0 < k {
        printer.write_all(b"|")?;
        printer.write_all(&errors[..k])?;
    }
    printer.write_all(b"\n")?;
    write_report(printer, r)
}

// A text with so many bytes lent in buffers 1, 2, 3 and 7, and 65,536 in the others.
fn lent(
    printer: &impl Print,
    text: &[u8],
    one: usize,
    two: usize,
    three: usize,
    seven: usize,
    budget: u32,
) -> io::Result<()>
    requires { (one ≤ 65536) × (two ≤ 65536) × (three ≤ 65536) × (seven ≤ 65536) }
{
    let mut pending = large_buffer();
    let mut calls = large_buffer();
    let mut definitions = large_buffer();
    let mut streams = large_buffer();
    let mut wrap = large_buffer();
    let mut errors = large_buffer();
    let mut output = large_buffer();
    run(
        printer,
        text,
        &mut pending[..one],
        &mut calls[..two],
        &mut definitions[..three],
        &mut streams,
        &mut wrap,
        &mut errors,
        &mut output[..seven],
        budget,
    )
}

// The same in it.
fn show(printer: &impl Print, text: &[u8]) -> io::Result<()> {
    lent(
        printer, text, MOST_LENT, MOST_LENT, MOST_LENT, MOST_LENT, BUDGET,
    )
}

// 01, "Worked texts", without a P.
fn worked(printer: &impl Print) -> io::Result<()> {
    show(printer, b"eval(7/-2)")?;
    show(printer, b"eval(-7%2)")?;
    show(printer, b"eval(1<<31)")?;
    show(printer, b"eval(255,16,4)")?;
    show(printer, b"incr(-1)")?;
    show(printer, b"incr(2147483647)")?;
    show(printer, b"define(`g',`[$2]')g(a,  b )")?;
    show(printer, b"m4wrap(`z')y")
}

// 01, the third case in its rooms: 1, 8, 2 and 1 bytes are needed.
fn third(printer: &impl Print) -> io::Result<()> {
    lent(printer, b"define(`n',`5')n", 1, 8, 2, 1, 8)?;
    lent(printer, b"define(`n',`5')n", 0, 8, 2, 1, 8)?;
    lent(printer, b"define(`n',`5')n", 1, 7, 2, 1, 8)?;
    lent(printer, b"define(`n',`5')n", 1, 8, 1, 1, 8)?;
    lent(printer, b"define(`n',`5')n", 1, 8, 2, 0, 8)?;
    lent(printer, b"define(`n',`5')n", 1, 8, 2, 1, 7)
}

// 01, "Traps on the old box".
fn traps(printer: &impl Print) -> io::Result<()> {
    // freed room is used again to the last byte: two bytes hold one definition at a time
    lent(
        printer,
        b"define(`a',`b')undefine(`a')define(`c',`d')c",
        100,
        100,
        2,
        100,
        100,
    )?;
    // another text in the place of one: judged on the state after the step, where only the new one stands
    lent(
        printer,
        b"define(`a',`bcd')define(`a',`efg')a",
        100,
        100,
        4,
        100,
        100,
    )?;
    // room for pending text is judged after the name is taken: `aa' becomes `bb' in two bytes
    lent(
        printer,
        b"define(`aa',`bb')define(`c',`aa')c",
        2,
        100,
        100,
        100,
        100,
    )?;
    // a name that begins in pending text and ends in the input
    show(printer, b"define(`a',`de')define(`def',`z')a()f")?;
    // a quote that begins in pending text and ends in the input
    show(
        printer,
        b"changequote([,])define([q],[`a])changequote q b' c",
    )?;
    // equal marks: the end mark is tried first, so quotes do not nest
    show(printer, b"changequote(`|',`|')|a|b|c|")
}

// Refusals that a text meets by itself; those by depth and by length are in the other tests.
fn refusals(printer: &impl Print) -> io::Result<()> {
    show(printer, b"`a")?;
    show(printer, b"changecom(%,;)%a")?;
    show(printer, b"define(a")?;
    show(printer, b"define(`1',`b')")?;
    show(printer, b"substr(`abc',-1)")?;
    show(printer, b"eval(1+)")?;
    show(printer, b"eval(1/0)")?;
    show(printer, b"changequote(`a',`b')")?;
    show(printer, b"defn(`define')")?;
    show(printer, b"define(`a',`b')a(undefine(`a'))")?;
    show(printer, b"a`'m4exit(7)b")
}

// Streams, wrap text, error text, comments, the parameters.
fn others(printer: &impl Print) -> io::Result<()> {
    show(
        printer,
        b"divert(1)one`'divert(2)two`'divert`'undivert(2)zero ",
    )?;
    show(
        printer,
        b"divert(-1)lost`'divert(3)kept`'divert(0)undivert`'!",
    )?;
    show(printer, b"errprint(`a',`b')x")?;
    show(printer, b"a # b n define\nc")?;
    show(printer, b"#a")?;
    show(printer, b"define(`f',``$0' $# $* $@ $10')f(`x',`y')")?;
    show(printer, b"define(`r',`ifelse($1,0,,`$1 r(decr($1))')')r(3)")?;
    show(
        printer,
        b"pushdef(`p',`1')pushdef(`p',`2')p`'popdef(`p')p`'popdef(`p')p",
    )?;
    show(
        printer,
        b"translit(`sway',`way',`oul') len(`mast') index(`guys',`ys')",
    )
}

fn main(rt: HostRuntime) -> io::Result<()> {
    worked(&rt)?;
    third(&rt)?;
    traps(&rt)?;
    refusals(&rt)?;
    others(&rt)
}
