// The arguments of a call that is closed: one by its number, from 1, as a text and as a number.
ghost use Rattle.std.specs.Prelude.{◌≡◌, ◌≤◌, length, pos};
ghost use Rattle.rules.specs.Arguments.{arg, number_or, bounded};
ghost use Rattle.rules.specs.Numerals.{number};
ghost use Rattle.rules.specs.Words.{largest};
ghost use Rattle.expander.specs.Arguments.{args_of};
ghost use Rattle.expander.specs.Limits.{most_lent};

use crate::argument_strings::Arguments;
use crate::packed;

// A number from `low` to `high`, if it is one.
fn bounded(number: Option<i32>, low: u32, high: u32) -> Option<u32>
    ensures { result ≡ bounded low high number }
{
    let n = u32::try_from(number?).ok()?;
    if low <= n && n <= high { Some(n) } else { None }
}

impl<'a> Arguments<'a> {
    // How many there are.
    pub(crate) fn count(self) -> usize
        ensures { result ≡ length (args_of self.entry) }
    {
        self.strings.count - self.base
    }

    // The n-th. An absent one is null.
    pub(crate) fn argument(self, n: usize) -> &'a [u8]
        requires { (1 ≤ n) × (n ≤ most_lent) }
        ensures { result.now ≡ arg n (args_of self.entry) }
    {
        let k = self.base + (n - 1);
        if k < self.strings.count {
            return packed::string(self.bytes, self.ends, self.strings, k);
        }
        &self.bytes[..0]
    }

    // The n-th as a number.
    pub(crate) fn number(self, n: usize) -> Option<i32>
        requires { (1 ≤ n) × (n ≤ most_lent) }
        ensures { result ≡ number (arg n (args_of self.entry)) }
    {
        numerals::read_number(self.argument(n))
    }

    // The same with a default where it is absent.
    pub(crate) fn number_or(self, n: usize, default: i32) -> Option<i32>
        requires { (1 ≤ n) × (n ≤ most_lent) }
        ensures { result ≡ number_or default n (args_of self.entry) }
    {
        if self.count() < n {
            return Some(default);
        }
        self.number(n)
    }

    // The n-th as a number from `low` to `high`.
    pub(crate) fn natural(self, n: usize, low: u32, high: u32) -> Option<u32>
        requires { (1 ≤ n) × (n ≤ most_lent) }
        ensures { result ≡ bounded low high (number (arg n (args_of self.entry))) }
    {
        bounded(self.number(n), low, high)
    }

    // The same with a default where it is absent.
    pub(crate) fn natural_or(self, n: usize, default: u32, low: u32, high: u32) -> Option<u32>
        requires { (1 ≤ n) × (n ≤ most_lent) × (default ≤ largest) }
        ensures { result ≡ bounded low high (number_or (pos default) n (args_of self.entry)) }
    {
        bounded(self.number_or(n, default as i32), low, high)
    }
}
