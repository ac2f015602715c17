// Expands the text on standard input in 65,536 bytes of each buffer and with a budget of 16,777,216 steps: the output goes to standard output,
// the error text and a line "number steps place detail" to standard error. A failed read or write is told by a message, and no such
// line follows. Nothing can be included: the set is one byte 0.
#![tactic(auto)]

ghost use Rattle.std.specs.Prelude.{◌≡◌, ◌≤◌, length, IfOk};

use rules::Report;
use std::io;
use std::io::{Print, Read, Stdin};

// One byte more than a text may have: a longer one is then answered 2.
const MOST_READ: usize = 65537;

const LENT: usize = 65536;

const BUDGET: u32 = 16777216;

fn buffer<const N: usize>() -> [u8; N]
    ensures { N ≡ length result }
{
    [0; N]
}

// Reads standard input to its end, or until the buffer is full: so many bytes.
fn read_text(mut stdin: Stdin, buffer: &mut [u8]) -> io::Result<usize>
    ensures { IfOk result (λ n. n ≤ length buffer.new) }
{
    let mut done = 0;
    while done < buffer.len() {
        match stdin.read(&mut buffer[done..])? {
            0 => return Ok(done),
            n => done += n,
        }
    }
    Ok(done)
}

// The answer line.
fn print_report(stderr: &impl Print, r: Report) -> io::Result<()> {
    let number = answers::number_of(r.answer);
    let detail = answers::detail_of(r.answer);
    let steps = r.steps;
    let place = r.place;
    println!(stderr; "{number} {steps} {place} {detail}")
}

// The text expanded, with working buffers that nothing needs behind it.
fn expanded(text: &[u8], errors: &mut [u8], output: &mut [u8]) -> Report
    ensures output { result.output ≤ length output.new }
    ensures errors { result.errors ≤ length errors.new }
{
    let mut pending = buffer::<LENT>();
    let mut calls = buffer::<LENT>();
    let mut definitions = buffer::<LENT>();
    let mut streams = buffer::<LENT>();
    let mut wrap = buffer::<LENT>();
    expander::expand(
        text,
        &[0],
        &mut pending,
        &mut calls,
        &mut definitions,
        &mut streams,
        &mut wrap,
        errors,
        output,
        BUDGET,
    )
}

fn expand_text(stdout: &impl Print, stderr: &impl Print, text: &[u8]) -> io::Result<()> {
    let mut errors = buffer::<LENT>();
    let mut output = buffer::<LENT>();
    let r = expanded(text, &mut errors, &mut output);
    let n = r.output as usize;
    let k = r.errors as usize;
    if stdout.write_all(&output[..n]).is_err() {
        return stderr.println("expand: the output could not be written");
    }
    stderr.write_all(&errors[..k])?;
    print_report(stderr, r)
}

fn main(rt: HostRuntime) -> io::Result<()> {
    let mut text = buffer::<MOST_READ>();
    let Ok(n) = read_text(rt.stdin(), &mut text) else {
        return rt
            .stderr()
            .println("expand: standard input could not be read");
    };
    expand_text(&rt.stdout(), &rt.stderr(), &text[..n])
}
