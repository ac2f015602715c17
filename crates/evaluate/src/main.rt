// Reads an expression of eval on standard input, at most 65,536 bytes, and writes what it comes to: a number, or the refusal.
#![tactic(auto)]

ghost use Rattle.std.specs.Prelude.{◌≤◌, length, IfOk};

use rules::{Answer, EvalError};
use std::io;
use std::io::{Print, Read, Stdin};

const MOST_READ: usize = 65536;

// Reads standard input to its end, or until the buffer is full: so many bytes.
fn read_text(mut stdin: Stdin, buffer: &mut [u8]) -> io::Result<usize>
    ensures { IfOk result (λ n. n ≤ length buffer.new) }
{
    let mut done = 0;
    while done < buffer.len() {
        match stdin.read(&mut buffer[done..])? {
            0 => return Ok(done),
            n => done += n,
        }
    }
    Ok(done)
}

fn write_refusal(out: &impl Print, answer: Answer) -> io::Result<()> {
    let number = answers::number_of(answer);
    println!(out; "refused {number}")
}

fn main(rt: HostRuntime) -> io::Result<()> {
    let mut buffer = [0; MOST_READ];
    let n = read_text(rt.stdin(), &mut buffer)?;
    match expression::evaluate(&buffer[..n]) {
        Ok(x) => println!(rt; "{x}"),
        Err(EvalError::Divisor) => write_refusal(&rt, Answer::Divisor),
        Err(EvalError::Unreadable) => write_refusal(&rt, Answer::Expression),
    }
}
