// The texts of the definitions that arguments name, each between quote marks: measured, then written.
ghost use Rattle.std.specs.Prelude.{◌≡◌, ◌+◌, ◌^◌, ◌<◌, ◌≤◌, length, Ok, IfOk};
ghost use Rattle.rules.specs.Bytes.{Bytes};
ghost use Rattle.rules.specs.Marks.{mark_texts, quoted};
ghost use Rattle.rules.specs.Table.{Table};
ghost use Rattle.rules.specs.Results.{defn_result, yields};
ghost use Rattle.expander.specs.Arguments.{args_of, ShortQuotes};
ghost use Rattle.expander.specs.Table.{TableIn, ValidDefinitions};
ghost use Rattle.expander.specs.Substitution.{Lays};
ghost use Rattle.expander.specs.Defn.{measured_as, named_result};
ghost use Rattle.expander.specs.Limits.{macro_count, most_lent};

use crate::argument_strings::Arguments;
use crate::table::{Definitions, Meaning};
use crate::{lists, packed, table};
use rules::{Answer, Marks};

// How many bytes the quote marks add to a text.
fn quotes_length(marks: Marks) -> usize
    requires { ShortQuotes marks }
    ensures { ((w : Bytes) → length (quoted (mark_texts marks) w) ≡ result + length w) × (result ≤ 10) }
{
    marks.begin_quote.len as usize + marks.end_quote.len as usize
}

// How long the text of a name's definition is between quote marks; 0 where it has none.
fn named_length(
    name: &[u8],
    marks: Marks,
    definitions: &[u8],
    table_ends: &[u32],
    t: Definitions,
) -> Result<usize, Answer>
    requires { ShortQuotes marks × ValidDefinitions definitions.now table_ends.now t.packed × (t.own < 2 ^ macro_count) }
    ensures value { (u : Table) → TableIn definitions.now table_ends.now t.packed t.own u → result ≡ measured_as (named_result (mark_texts marks) u name.now) }
    ensures bounded { IfOk result (λ n. n ≤ most_lent + 10) }
{
    let p = t.packed;
    let own = t.own;
    let meaning = table::look_up(definitions, table_ends, p, own, name);
    match meaning {
        Meaning::Text(i) => {
            let k = 2 * i + 1;
            let text = packed::string(definitions, table_ends, p, k);
            Ok(quotes_length(marks) + text.len())
        }
        Meaning::Predefined(_) => Err(Answer::NoText),
        Meaning::Undefined => Ok(0),
    }
}

// How long the texts of all arguments are.
pub(crate) fn defn_length(
    x: Arguments,
    marks: Marks,
    definitions: &[u8],
    table_ends: &[u32],
    t: Definitions,
) -> Result<usize, Answer>
    requires { ShortQuotes marks × ValidDefinitions definitions.now table_ends.now t.packed × (t.own < 2 ^ macro_count) }
    ensures { (u : Table) → TableIn definitions.now table_ends.now t.packed t.own u → result ≡ measured_as (defn_result (mark_texts marks) u (args_of x.entry)) }
{
    let mut total = 0;
    for k in 0..x.count() {
        total += named_length(x.argument(k + 1), marks, definitions, table_ends, t)?;
    }
    Ok(total)
}

// The text of a name's definition between quote marks, into a buffer at a place; returns the place behind it. Nothing where it has none.
fn fill_named(
    name: &[u8],
    marks: Marks,
    definitions: &[u8],
    table_ends: &[u32],
    t: Definitions,
    dst: &mut [u8],
    at: usize,
) -> usize
    requires short_quotes { ShortQuotes marks × ValidDefinitions definitions.now table_ends.now t.packed × (t.own < 2 ^ macro_count) }
    requires w_in_bounds { (u : Table) (w : Bytes) → TableIn definitions.now table_ends.now t.packed t.own u → named_result (mark_texts marks) u name.now ≡ yields w → at + length w ≤ length dst.old }
    ensures { (u : Table) (w : Bytes) → TableIn definitions.now table_ends.now t.packed t.own u → named_result (mark_texts marks) u name.now ≡ yields w → Lays dst.old at w dst.new result }
{
    let p = t.packed;
    let own = t.own;
    let meaning = table::look_up(definitions, table_ends, p, own, name);
    match meaning {
        Meaning::Text(i) => {
            let k = 2 * i + 1;
            lists::fill_quoted(
                packed::string(definitions, table_ends, p, k),
                marks,
                dst,
                at,
            )
        }
        Meaning::Predefined(_) => at,
        Meaning::Undefined => at,
    }
}

// The texts of all arguments, into a slice of their length.
pub(crate) fn fill_defn(
    x: Arguments,
    marks: Marks,
    definitions: &[u8],
    table_ends: &[u32],
    t: Definitions,
    dst: &mut [u8],
)
    requires short_quotes { ShortQuotes marks × ValidDefinitions definitions.now table_ends.now t.packed × (t.own < 2 ^ macro_count) }
    requires args_value { (u : Table) → TableIn definitions.now table_ends.now t.packed t.own u → measured_as (defn_result (mark_texts marks) u (args_of x)) ≡ Ok (length dst.old) }
    ensures { (u : Table) → TableIn definitions.now table_ends.now t.packed t.own u → defn_result (mark_texts marks) u (args_of x.entry) ≡ yields dst.new }
{
    let mut at = 0;
    for k in 0..x.count() {
        at = fill_named(
            x.argument(k + 1),
            marks,
            definitions,
            table_ends,
            t,
            dst,
            at,
        );
    }
}
