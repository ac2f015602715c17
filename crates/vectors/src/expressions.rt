// eval: a line for each expression, with what it comes to. A line of `stdin` is an expression, or stands for one: `@`, a count, and a
// front, a middle and a back with tabs between them, the middle between so many fronts and backs. Expressions with a newline, or with a
// byte that is no text, stand here. A line that begins with `#` has a text whose bucket is asked for (names.rt).
ghost use Rattle.std.specs.Prelude.{◌≤◌, length};

use crate::names;
use rules::EvalError;
use std::io;
use std::io::Print;

// The bytes of these vectors that do not print have an escape.
fn write_byte(printer: &impl Print, b: u8) -> io::Result<()> {
    match b {
        b'\t' => print!(printer; "\\t"),
        b'\n' => print!(printer; "\\n"),
        0 | 11..=13 | 128 | 160 => print!(printer; "\\x{b:02x}"),
        _ => printer.write_all(&[b]),
    }
}

fn write_shown(printer: &impl Print, text: &[u8]) -> io::Result<()> {
    for b in text {
        write_byte(printer, *b)?;
    }
    Ok(())
}

fn write_value(printer: &impl Print, s: &[u8]) -> io::Result<()> {
    match expression::evaluate(s) {
        Ok(x) => println!(printer; " is {x}"),
        Err(EvalError::Divisor) => println!(printer; " is refused 9"),
        Err(EvalError::Unreadable) => println!(printer; " is refused 8"),
    }
}

fn show(printer: &impl Print, s: &[u8]) -> io::Result<()> {
    write_shown(printer, s)?;
    write_value(printer, s)
}

fn count_of(s: &[u8]) -> usize {
    match expression::evaluate(s) {
        Ok(count) => count.cast_unsigned() as usize,
        Err(_) => 0,
    }
}

// Puts a piece so many times behind the first `at` bytes, as far as there is room: so many bytes stand there then.
fn repeat(text: &mut [u8], at: usize, piece: &[u8], count: usize) -> usize
    requires { at ≤ length text.old }
    ensures { result ≤ length text.new }
{
    let n = piece.len().saturating_mul(count).min(text.len() - at);
    for (to, from) in text[at..at + n].iter_mut().zip(piece.iter().cycle()) {
        *to = *from;
    }
    at + n
}

// Count, front, middle and back, with tabs between them.
fn show_repeated(printer: &impl Print, fields: &[u8]) -> io::Result<()> {
    let mut fields = fields.splitn(4, |x| *x == b'\t');
    let count = count_of(fields.next().unwrap_or(&[]));
    let front = fields.next().unwrap_or(&[]);
    let middle = fields.next().unwrap_or(&[]);
    let back = fields.next().unwrap_or(&[]);
    let mut text = [0; 65536];
    let begun = repeat(&mut text, 0, front, count);
    let whole = repeat(&mut text, begun, middle, 1);
    let end = repeat(&mut text, whole, back, count);
    write_value(printer, &text[..end])
}

fn show_line(printer: &impl Print, line: &[u8]) -> io::Result<()> {
    match line {
        [b'@', fields @ ..] => {
            write_shown(printer, line)?;
            show_repeated(printer, fields)
        }
        [b'#', text @ ..] => {
            write_shown(printer, line)?;
            names::show(printer, text)
        }
        _ => show(printer, line),
    }
}

fn show_lines(printer: &impl Print, text: &[u8]) -> io::Result<()> {
    for line in text.split_inclusive(|x| *x == b'\n') {
        show_line(printer, line.strip_suffix(b"\n").unwrap_or(line))?;
    }
    Ok(())
}

fn show_blanks(printer: &impl Print) -> io::Result<()> {
    show(printer, b"\t1\n")?;
    show(printer, b"1\n+\t2")?;
    show(printer, b"\n\n-\t\n7\n")?;
    show(printer, b"1\n2")?;
    show(printer, b"1\n")?;
    show(printer, b"\n")
}

// No other byte parts tokens.
fn show_others(printer: &impl Print) -> io::Result<()> {
    show(printer, b"1\r")?;
    show(printer, b"\r1")?;
    show(printer, b"1\x0b")?;
    show(printer, b"1\x0c")?;
    show(printer, b"1\0")?;
    show(printer, b"\0")?;
    show(printer, b"1\x80")?;
    show(printer, b"\xa01")
}

pub(crate) fn run(printer: &impl Print, text: &[u8]) -> io::Result<()> {
    show_lines(printer, text)?;
    show_blanks(printer)?;
    show_others(printer)
}
