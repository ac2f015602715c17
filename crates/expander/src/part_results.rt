// The macros whose result is a part of an argument.
ghost use Rattle.std.specs.Prelude.{◌≡◌, ◌+◌, ◌<◌, ◌≤◌, Ok};
ghost use Rattle.rules.specs.Bytes.{same_bytes};
ghost use Rattle.rules.specs.Arguments.{arg};
ghost use Rattle.rules.specs.Table.{Table};
ghost use Rattle.rules.specs.Results.{ifdef_result, ifelse_result, substr_result};
ghost use Rattle.expander.specs.Arguments.{args_of};
ghost use Rattle.expander.specs.Table.{TableIn, ValidDefinitions};
ghost use Rattle.expander.specs.Results.{answered, part_text};
ghost use Rattle.expander.specs.Limits.{most_lent};

use crate::argument_strings::Arguments;
use crate::limits::LARGEST;
use crate::table;
use crate::table::{Definitions, Meaning};
use rules::Answer;

pub(crate) fn ifdef<'a>(
    x: Arguments<'a>,
    definitions: &[u8],
    table_ends: &[u32],
    t: Definitions,
) -> &'a [u8]
    requires { ValidDefinitions definitions.now table_ends.now t.packed }
    ensures { (u : Table) → TableIn definitions.now table_ends.now t.packed t.own u → part_text (Ok result) ≡ answered (ifdef_result u (args_of x.entry)) }
{
    let name = x.argument(1);
    match table::look_up(definitions, table_ends, t.packed, t.own, name) {
        Meaning::Undefined => x.argument(3),
        _ => x.argument(2),
    }
}

// Whether the k-th argument and the next are the same.
fn alike(x: Arguments, k: usize) -> bool
    requires { (1 ≤ k) × (k < most_lent) }
    ensures { result ≡ same_bytes (arg k (args_of x.entry)) (arg (k + 1) (args_of x.entry)) }
{
    let left = x.argument(k);
    let right = x.argument(k + 1);
    ascii::same(left, right)
}

// Three arguments are passed at a time, as long as the first two of those left differ and more than five are left.
pub(crate) fn ifelse<'a>(x: Arguments<'a>) -> &'a [u8]
    ensures { part_text (Ok result) ≡ answered (ifelse_result (args_of x.entry)) }
{
    let have = x.count();
    let mut k = 1;
    // The step depends on how many arguments are left, so no iterator over them fits.
    while k + 2 <= have {
        if alike(x, k) {
            return x.argument(k + 2);
        }
        if have <= k + 4 {
            return x.argument(k + 3);
        }
        k += 3;
    }
    &x.bytes[..0]
}

pub(crate) fn substr<'a>(x: Arguments<'a>) -> Result<&'a [u8], Answer>
    ensures { part_text result ≡ answered (substr_result (args_of x.entry)) }
{
    let text = x.argument(1);
    let from = x.natural(2, 0, LARGEST).ok_or(Answer::Number)? as usize;
    let behind = &text[from.min(text.len())..];
    let size = behind.len() as u32;
    let count = x.natural_or(3, size, 0, LARGEST).ok_or(Answer::Number)? as usize;
    Ok(&behind[..count.min(behind.len())])
}
