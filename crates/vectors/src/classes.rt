// Byte classes, names and slices: a line for each byte with its class, then names, comparisons and copies.
use rules::Class;
use std::io;
use std::io::Print;

fn write_class(printer: &impl Print, c: Class) -> io::Result<()> {
    let name = match c {
        Class::Letter => "letter",
        Class::Digit => "digit",
        Class::Underscore => "underscore",
        Class::Blank => "blank",
        Class::Other => "other",
    };
    print!(printer; " {name} ")
}

// The byte's number, its class, and a letter for each test that it passes: upper, lower, letter, digit, underscore, blank, begins and continues a name.
fn class_line(printer: &impl Print, x: u8) -> io::Result<()> {
    print!(printer; "{x}")?;
    write_class(printer, ascii::class_of(x))?;
    let tests = [
        (ascii::is_upper(x), 'U'),
        (ascii::is_lower(x), 'l'),
        (ascii::is_letter(x), 'L'),
        (ascii::is_digit(x), 'D'),
        (ascii::is_underscore(x), '_'),
        (ascii::is_blank(x), 'B'),
        (ascii::begins_name(x), 'b'),
        (ascii::continues_name(x), 'c'),
    ];
    for (passes, letter) in tests {
        let shown = if passes { letter } else { '.' };
        print!(printer; "{shown}")?;
    }
    println!(printer)
}

fn every_byte(printer: &impl Print) -> io::Result<()> {
    for x in 0..=u8::MAX {
        class_line(printer, x)?;
    }
    Ok(())
}

fn name_line(printer: &impl Print, s: &[u8]) -> io::Result<()> {
    printer.write_all(s)?;
    let n = ascii::name_length(s);
    print!(printer; ": {n}")?;
    if ascii::is_name(s) {
        print!(printer; ", a name")?;
    }
    println!(printer)
}

fn same_line(printer: &impl Print, a: &[u8], b: &[u8]) -> io::Result<()> {
    printer.write_all(a)?;
    let said = if ascii::same(a, b) { "is" } else { "is not" };
    print!(printer; " {said} ")?;
    printer.write_all(b)?;
    println!(printer)
}

fn copy_line(printer: &impl Print, from: &[u8]) -> io::Result<()> {
    let mut into = [b'o', b'l', b'd'];
    let said = if ascii::copy(from, &mut into) {
        "copied"
    } else {
        "refused"
    };
    print!(printer; "{said}: ")?;
    printer.write_all(&into)?;
    println!(printer)
}

pub(crate) fn run(printer: &impl Print) -> io::Result<()> {
    every_byte(printer)?;
    name_line(printer, b"")?;
    name_line(printer, b"a")?;
    name_line(printer, b"_")?;
    name_line(printer, b"7")?;
    name_line(printer, b"sway_x_17")?;
    name_line(printer, b"x-y")?;
    name_line(printer, b"Z9 ")?;
    name_line(printer, b"9Z")?;
    name_line(printer, b"a\xc3\xa9")?;
    same_line(printer, b"", b"")?;
    same_line(printer, b"", b"a")?;
    same_line(printer, b"ab", b"ab")?;
    same_line(printer, b"ab", b"aB")?;
    same_line(printer, b"ab", b"abc")?;
    same_line(printer, b"abc", b"ab")?;
    copy_line(printer, b"new")?;
    copy_line(printer, b"")?;
    copy_line(printer, b"ne")?;
    copy_line(printer, b"newer")
}
