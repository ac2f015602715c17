// Numbers read, measured and written, one answer to a line.
use std::io;
use std::io::Print;

// A number in decimal.
fn put_number(printer: &impl Print, x: i32) -> io::Result<()> {
    let mut buffer = [0; 11];
    if let Some(out) = buffer.get_mut(..numerals::decimal_length(x))
        && numerals::write_decimal(out, x)
    {
        printer.write_all(out)?;
    }
    Ok(())
}

fn read_as(printer: &impl Print, label: &[u8], s: &[u8]) -> io::Result<()> {
    print!(printer; "read ")?;
    printer.write_all(label)?;
    print!(printer; ": ")?;
    match numerals::read_number(s) {
        Some(x) => put_number(printer, x)?,
        None => print!(printer; "no number")?,
    }
    println!(printer)
}

fn read(printer: &impl Print, s: &[u8]) -> io::Result<()> {
    read_as(printer, s, s)
}

fn natural(printer: &impl Print, s: &[u8], radix: u32) -> io::Result<()> {
    print!(printer; "base {radix}, read ")?;
    printer.write_all(s)?;
    match numerals::read_natural(s, radix) {
        Some(x) => println!(printer; ": {x}"),
        None => println!(printer; ": no number"),
    }
}

fn put_into(
    printer: &impl Print,
    out: &mut [u8],
    x: i32,
    radix: u32,
    least: u32,
) -> io::Result<()> {
    if !numerals::write_number(out, x, radix, least) {
        print!(printer; "refused ")?;
    }
    printer.write_all(out)
}

// The text, or what is left of `room` dots where it is refused.
fn put_text(printer: &impl Print, room: usize, x: i32, radix: u32, least: u32) -> io::Result<()> {
    let mut buffer = [b'.'; 64];
    match buffer.get_mut(..room) {
        Some(out) => put_into(printer, out, x, radix, least),
        None => Ok(()),
    }
}

fn put_written(printer: &impl Print, x: i32, radix: u32, least: u32) -> io::Result<()> {
    match numerals::written_length(x, radix, least) {
        Some(n) => put_text(printer, n, x, radix, least),
        None => print!(printer; "bad radix"),
    }
}

// Radix and number are told by the function under test, a radix by its bits.
fn put_case(printer: &impl Print, x: i32, radix: u32, least: u32) -> io::Result<()> {
    print!(printer; "base ")?;
    put_number(printer, radix.cast_signed())?;
    print!(printer; ", ")?;
    put_number(printer, x)?;
    print!(printer; " in {least}: ")
}

fn written(printer: &impl Print, x: i32, radix: u32, least: u32) -> io::Result<()> {
    put_case(printer, x, radix, least)?;
    put_written(printer, x, radix, least)?;
    println!(printer)
}

// In each radix, with a least count of digits below the length and one above it.
fn every_radix(printer: &impl Print, x: i32) -> io::Result<()> {
    for radix in 2..=36 {
        written(printer, x, radix, 1)?;
        written(printer, x, radix, 34)?;
    }
    Ok(())
}

fn measured(printer: &impl Print, x: i32, radix: u32, least: u32) -> io::Result<()> {
    put_case(printer, x, radix, least)?;
    match numerals::written_length(x, radix, least) {
        Some(n) => println!(printer; "{n} bytes"),
        None => println!(printer; "bad radix"),
    }
}

fn into(printer: &impl Print, room: usize, x: i32, radix: u32, least: u32) -> io::Result<()> {
    put_case(printer, x, radix, least)?;
    put_text(printer, room, x, radix, least)?;
    println!(printer)
}

fn many_zeros(printer: &impl Print) -> io::Result<()> {
    let mut digits = [b'0'; 65536];
    read_as(printer, b"65536 zeros", &digits)?;
    digits[65535] = b'7';
    read_as(printer, b"65535 zeros and 7", &digits)?;
    digits[0] = b'-';
    read_as(printer, b"-, 65534 zeros and 7", &digits)?;
    digits[40000] = b'x';
    read_as(printer, b"-, 65533 zeros, x among them, and 7", &digits)
}

fn reads_signs(printer: &impl Print) -> io::Result<()> {
    read(printer, b"")?;
    read(printer, b"-")?;
    read(printer, b"0")?;
    read(printer, b"-0")?;
    read(printer, b"-00")?;
    read(printer, b"7")?;
    read(printer, b"007")?;
    read(printer, b"-007")?;
    read(printer, b"+1")?;
    read(printer, b"--1")?;
    read(printer, b"1-")
}

fn reads_other_bytes(printer: &impl Print) -> io::Result<()> {
    read(printer, b"1a")?;
    read(printer, b"a")?;
    read(printer, b"0x1")?;
    read(printer, b" 1")?;
    read(printer, b"1 ")?;
    read(printer, b"1\n")?;
    read(printer, b"/")?;
    read(printer, b":")?;
    read_as(printer, b"the byte C3", b"\xC3")?;
    read_as(printer, b"1 and the byte C3", b"1\xC3")?;
    read_as(printer, b"the byte 0", b"\0")
}

fn reads_limits(printer: &impl Print) -> io::Result<()> {
    read(printer, b"2147483647")?;
    read(printer, b"2147483648")?;
    read(printer, b"-2147483648")?;
    read(printer, b"-2147483649")?;
    read(printer, b"4294967295")?;
    read(printer, b"4294967296")?;
    read(printer, b"4294967297")?;
    read(printer, b"-4294967297")?;
    read(printer, b"99999999999999999999")?;
    read(printer, b"18446744073709551616")?;
    read(printer, b"18446744073709551617")
}

fn reads_zeros(printer: &impl Print) -> io::Result<()> {
    read(
        printer,
        b"00000000000000000000000000000000000000000000000000000000000000000000001",
    )?;
    read(
        printer,
        b"-0000000000000000000000000000000000000000000000000000000000000000000000002147483648",
    )?;
    many_zeros(printer)
}

fn naturals(printer: &impl Print) -> io::Result<()> {
    natural(printer, b"", 10)?;
    natural(printer, b"4294967295", 10)?;
    natural(printer, b"4294967296", 10)?;
    natural(printer, b"FFFFFFFF", 16)?;
    natural(printer, b"ffffffff", 16)?;
    natural(printer, b"100000000", 16)?;
    natural(printer, b"fg", 16)?;
    natural(printer, b"37777777777", 8)?;
    natural(printer, b"40000000000", 8)?;
    natural(printer, b"8", 8)?;
    natural(printer, b"1z141z3", 36)?;
    natural(printer, b"1Z141Z4", 36)?;
    natural(printer, b"102", 2)?;
    natural(printer, b"101", 2)?;
    natural(printer, b"0", 1)?;
    natural(printer, b"0", 0)?;
    natural(printer, b"_", 36)?;
    natural(printer, b"1", 1)?;
    natural(printer, b"zZ", 37)?;
    natural(printer, b"_", 37)?;
    natural(printer, b"1_", 1000)
}

fn writes(printer: &impl Print) -> io::Result<()> {
    every_radix(printer, 0)?;
    every_radix(printer, i32::MAX)?;
    every_radix(printer, i32::MIN)?;
    written(printer, 1, 1, 0)?;
    written(printer, 1, 0, 0)?;
    written(printer, 1, 37, 0)?;
    written(printer, -1, 10, 0)?;
    written(printer, -1, 10, 5)?;
    written(printer, 255, 16, 2)?;
    written(printer, 255, 16, 3)?;
    written(printer, 0, 10, 0)
}

fn lengths(printer: &impl Print) -> io::Result<()> {
    measured(printer, 0, 10, 2147483647)?;
    measured(printer, -1, 10, 2147483647)?;
    measured(printer, i32::MIN, 2, 32)?;
    measured(printer, i32::MIN, 2, 33)?;
    measured(printer, 5, u32::MAX, 0)
}

// Slices of the text's length and of others, and a radix outside.
fn refusals(printer: &impl Print) -> io::Result<()> {
    into(printer, 3, 123, 10, 0)?;
    into(printer, 4, 123, 10, 0)?;
    into(printer, 2, 123, 10, 0)?;
    into(printer, 0, 123, 10, 0)?;
    into(printer, 3, 123, 37, 0)?;
    into(printer, 4, -123, 10, 0)?;
    into(printer, 6, -123, 10, 5)
}

pub(crate) fn run(printer: &impl Print) -> io::Result<()> {
    reads_signs(printer)?;
    reads_other_bytes(printer)?;
    reads_limits(printer)?;
    reads_zeros(printer)?;
    naturals(printer)?;
    writes(printer)?;
    lengths(printer)?;
    refusals(printer)
}
