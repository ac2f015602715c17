// A defined text with the arguments of a call put in: measured, then written.
ghost use Rattle.std.specs.Prelude.{◌≡◌, ◌+◌, ◌*◌, ◌<◌, ◌≤◌, List, ◌∷◌, length, drop, pos};
ghost use Rattle.rules.specs.Bytes.{Bytes};
ghost use Rattle.rules.specs.Marks.{mark_texts};
ghost use Rattle.rules.specs.Numerals.{decimal};
ghost use Rattle.rules.specs.Arguments.{substituted, commas, quoted_each};
ghost use Rattle.rules.specs.Words.{largest};
ghost use Rattle.expander.specs.Arguments.{args_of, ShortQuotes};
ghost use Rattle.expander.specs.Substitution.{parameter_text, parameter_width, OneDigit, Leads, Lays};
ghost use Rattle.expander.specs.Limits.{most_lent};

use crate::argument_strings::Arguments;
use crate::{buffers, lists};
use rules::Marks;

// What the bytes at a place of a defined text stand for: `$` and the byte behind it for the name, an argument by its number, how many
// there are, all of them, all in quote marks; or a single byte for itself.
#[derive(Clone, Copy)]
enum Parameter {
    Name,
    Argument(usize),
    Count,
    All,
    Quoted,
    Literal(u8),
}

// What `$` and the byte y behind it stand for.
fn parameter_named(y: u8) -> Parameter
    ensures { (ys : Bytes) → Leads (36 ∷ y ∷ ys) result }
{
    match y {
        b'0' => Parameter::Name,
        b'#' => Parameter::Count,
        b'*' => Parameter::All,
        b'@' => Parameter::Quoted,
        _ => {
            if ascii::is_digit(y) {
                let n = y - b'0';
                return Parameter::Argument(n as usize);
            }
            Parameter::Literal(b'$')
        }
    }
}

// What stands at the place i of a defined text.
fn parameter_at(body: &[u8], i: usize) -> Parameter
    requires { i < length body.now }
    ensures { Leads (drop i body.now) result }
{
    let x = body[i];
    if x != b'$' {
        return Parameter::Literal(x);
    }
    let j = i + 1;
    if j < body.len() {
        return parameter_named(body[j]);
    }
    Parameter::Literal(x)
}

// How many bytes of the defined text it takes.
fn parameter_width(parameter: Parameter) -> usize
    ensures { result ≡ parameter_width parameter }
{
    match parameter {
        Parameter::Literal(_) => 1,
        _ => 2,
    }
}

// How long the text of a parameter is.
fn parameter_length(name: &[u8], x: Arguments, marks: Marks, parameter: Parameter) -> usize
    requires { ShortQuotes marks × OneDigit parameter × (length name.now ≤ most_lent) }
    ensures { (result ≡ length (parameter_text name.now (args_of x.entry) (mark_texts marks) parameter)) × (result ≤ 2 * most_lent) }
{
    match parameter {
        Parameter::Name => name.len(),
        Parameter::Argument(n) => x.argument(n).len(),
        Parameter::Count => numerals::decimal_length(x.count() as i32),
        Parameter::All => lists::list_length(x, 0, lists::bare_marks()),
        Parameter::Quoted => lists::list_length(x, 0, marks),
        Parameter::Literal(_) => 1,
    }
}

// A number in decimal, into a buffer at a place; returns the place behind it.
fn fill_decimal(n: usize, dst: &mut [u8], at: usize) -> usize
    requires { (n ≤ largest) × (at + length (decimal (pos n)) ≤ length dst.old) }
    ensures { Lays dst.old at (decimal (pos n)) dst.new result }
{
    let n = n as i32;
    let end = at + numerals::decimal_length(n);
    numerals::write_decimal(&mut dst[at..end], n);
    end
}

// All arguments with commas between them, into a buffer at a place; returns the place behind them.
fn fill_all(x: Arguments, marks: Marks, dst: &mut [u8], at: usize) -> usize
    requires short_quotes { ShortQuotes marks }
    requires args_in_bounds { at + length (commas (quoted_each (mark_texts marks) (args_of x))) ≤ length dst.old }
    ensures { Lays dst.old at (commas (quoted_each (mark_texts marks) (args_of x.entry))) dst.new result }
{
    let end = at + lists::list_length(x, 0, marks);
    lists::fill_list(x, 0, marks, b',', dst, at);
    end
}

// A slice, into a buffer at a place; returns the place behind it.
fn fill_text(s: &[u8], dst: &mut [u8], at: usize) -> usize
    requires { at + length s.now ≤ length dst.old }
    ensures { Lays dst.old at s.now dst.new result }
{
    let end = at + s.len();
    buffers::fill_slice(s, dst, at);
    end
}

// The text of a parameter, into a buffer at a place; returns the place behind it.
fn fill_parameter(
    name: &[u8],
    x: Arguments,
    marks: Marks,
    parameter: Parameter,
    dst: &mut [u8],
    at: usize,
) -> usize
    requires short_quotes { ShortQuotes marks × OneDigit parameter }
    requires parameter_in_bounds { at + length (parameter_text name.now (args_of x) (mark_texts marks) parameter) ≤ length dst.old }
    ensures { Lays dst.old at (parameter_text name.now (args_of x.entry) (mark_texts marks) parameter) dst.new result }
{
    match parameter {
        Parameter::Name => fill_text(name, dst, at),
        Parameter::Argument(n) => fill_text(x.argument(n), dst, at),
        Parameter::Count => fill_decimal(x.count(), dst, at),
        Parameter::All => fill_all(x, lists::bare_marks(), dst, at),
        Parameter::Quoted => fill_all(x, marks, dst, at),
        Parameter::Literal(b) => {
            dst[at] = b;
            at + 1
        }
    }
}

// How long the text is.
pub(crate) fn substituted_length(name: &[u8], x: Arguments, marks: Marks, body: &[u8]) -> usize
    requires { ShortQuotes marks × (length name.now ≤ most_lent) × (length body.now ≤ most_lent) }
    ensures { result ≡ length (substituted name.now (args_of x.entry) (mark_texts marks) body.now) }
{
    let mut total = 0;
    let mut i = 0;
    // A step is as wide as what was read there, so no `for` or iterator fits.
    while i < body.len() {
        let p = parameter_at(body, i);
        total += parameter_length(name, x, marks, p);
        i += parameter_width(p);
    }
    total
}

// The text, into a slice of its length.
pub(crate) fn fill_substituted(name: &[u8], x: Arguments, marks: Marks, body: &[u8], dst: &mut [u8])
    requires short_quotes { ShortQuotes marks × (length name.now ≤ most_lent) × (length body.now ≤ most_lent) }
    requires dst_len { length dst.old ≡ length (substituted name.now (args_of x) (mark_texts marks) body.now) }
    ensures { dst.new ≡ substituted name.now (args_of x.entry) (mark_texts marks) body.now }
{
    let mut at = 0;
    let mut i = 0;
    // A step is as wide as what was read there, so no `for` or iterator fits.
    while i < body.len() {
        let p = parameter_at(body, i);
        at = fill_parameter(name, x, marks, p, dst, at);
        i += parameter_width(p);
    }
}
