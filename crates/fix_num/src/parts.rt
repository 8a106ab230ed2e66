//! The parts of a decimal's text.
ghost use Rattle.std.specs.Prelude.{IsTrue};
ghost use Rattle.fix_num.specs.Digits.{are_digits};

/// A decimal's sign, its digits before the point and those after it.
#[derive(Drop)]
pub(crate) struct Parts<'a> {
    pub negative: bool,
    pub whole: &'a [u8],
    pub fraction: &'a [u8],
    ghost whole_digits: { IsTrue (are_digits whole.now) },
    ghost fraction_digits: { IsTrue (are_digits fraction.now) },
}
