//! The one rounding of the product.
ghost use Rattle.std.specs.Prelude.{◌≡◌, ◌<◌, ◌≤◌, ◌*◌, ◌^◌, pos, ◌*ℤ◌, ◌<ℤ◌, unsigned_abs};
ghost use Rattle.fix_num.specs.Rounding.{rounded_quotient};

/// The whole number nearest to `a / b`, halves towards plus infinity: `floor((2a + b) / (2b))`.
pub fn rnd(a: i128, b: i128) -> i128
    requires positive { pos 0 <ℤ b }
    requires dividend { unsigned_abs a < 2 ^ 125 }
    requires divisor { unsigned_abs b < 2 ^ 125 }
    ensures value { result ≡ rounded_quotient a b }
    ensures size { unsigned_abs result ≤ unsigned_abs a }
{
    (2 * a + b).div_euclid(2 * b)
}

/// `a * b / whole`, rounded.
pub fn rounded_product(a: i64, b: i64, whole: i64) -> i128
    requires positive { pos 0 <ℤ whole }
    requires first { unsigned_abs a < 2 ^ 62 }
    ensures value { result ≡ rounded_quotient (a *ℤ b) whole }
    ensures size { unsigned_abs result ≤ unsigned_abs a * unsigned_abs b }
{
    rnd(i128::from(a) * i128::from(b), i128::from(whole))
}
