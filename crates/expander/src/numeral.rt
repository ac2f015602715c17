// A number that is a result, with how it is written.
ghost use Rattle.std.specs.Prelude.{◌≡◌, true};
ghost use Rattle.numerals.specs.Answers.{is_radix};

// A number, the radix and the least count of digits.
#[derive(Clone, Copy)]
pub(crate) struct Numeral {
    pub(crate) value: i32,
    pub(crate) radix: u32,
    pub(crate) least: u32,
    ghost good_radix: { is_radix radix ≡ true },
}
