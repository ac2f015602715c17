// Vectors of the leaves. What each must write, `stdout`, was worked out from the papers and, for eval, C's rules.
#![tactic(auto)]

mod classes;
mod expressions;
mod names;
mod numbers;
mod places;

ghost use Rattle.std.specs.Prelude.{◌≤◌, length, IfOk};

use std::io;
use std::io::{Read, Stdin};

// So many bytes of standard input are read at most.
const MOST_READ: usize = 65536;

// Reads standard input to its end, or until the buffer is full: so many bytes. (A loop, since std reads to the end only into the heap, which no program here takes from.)
fn read_text(mut stdin: Stdin, buffer: &mut [u8]) -> io::Result<usize>
    ensures { IfOk result (λ n. n ≤ length buffer.new) }
{
    let mut done = 0;
    while done < buffer.len() {
        match stdin.read(&mut buffer[done..])? {
            0 => break,
            n => done += n,
        }
    }
    Ok(done)
}

fn main(rt: HostRuntime) -> io::Result<()> {
    classes::run(&rt)?;
    numbers::run(&rt)?;
    places::run(&rt)?;
    let mut buffer = [0; MOST_READ];
    let n = read_text(rt.stdin(), &mut buffer)?;
    expressions::run(&rt, &buffer[..n])
}
