//! Absolute values of declared ones.
ghost use Rattle.std.specs.Prelude.{◌≡◌, ◌≤◌, pos, ◌<ℤ◌, unsigned_abs};
ghost use Rattle.fix_num.specs.declared.limits.TheConstants.{MAX_NUMBER};
ghost use Rattle.value_types.specs.Ranges.{IsSize, IsWithinLimit};
ghost use Rattle.value_types.specs.Validity.{IsDeclaredFor, IsValid};
ghost use Rattle.computed_value.specs.Absolute.{IsSpecified, absolute_of, computed_opacity, em_size_of, is_kept, percent_of, pixels_of, product_within, resolved_value, size_times};

use fix_num::limits::MAX_NUMBER;
use fix_num::{Fix, clamp, rounded_product};
use value_types::{Declared, PropertyId, Size, Unit, Value, keeps_percent};

/// A percent has this many millionths in a whole.
const WHOLE: i64 = 100 * Fix::ONE.0;

const LIMIT: i64 = MAX_NUMBER as i64;

/// The computed value of a declared one: em, rem and the percents of `font-size` become pixels, and opacity
/// is clamped to 0 to 1 (CSS Values 3, "Relative Lengths"; CSS Fonts 4, "Font size: the font-size property"; CSS
/// Color 4, "Transparency: the opacity property"). The sizes are the font sizes of the parent, of the element and
/// of the root, in millionths of a pixel. The declared value has to be one of the property and the sizes within
/// their limits, since only then is what comes out a value of the property.
pub fn absolute(
    p: PropertyId,
    d: &Declared,
    parent_size: Fix,
    own_size: Fix,
    root_size: Fix,
) -> Value
    requires specified { IsSpecified d.now }
    requires declared { IsDeclaredFor p d.now }
    requires parent { IsSize parent_size }
    requires own { IsSize own_size }
    requires root { IsSize root_size }
    ensures value { result ≡ absolute_of p d.now parent_size own_size root_size }
    ensures valid { IsValid p result }
{
    resolve(p, *d, em_size(p, parent_size, own_size), root_size)
}

fn em_size(p: PropertyId, parent_size: Fix, own_size: Fix) -> Fix
    ensures { result ≡ em_size_of p parent_size own_size }
{
    if p == PropertyId::FontSize {
        parent_size
    } else {
        own_size
    }
}

fn resolve(p: PropertyId, d: Declared, em: Fix, root: Fix) -> Value
    requires specified { IsSpecified d }
    requires declared { IsDeclaredFor p d }
    ensures { result ≡ resolved_value p em root d }
{
    match d {
        Declared::Inherit | Declared::Initial => unreachable!(),
        Declared::Number(n) => Value::Number(opacity(n)),
        Declared::Length(s) => Value::Length {
            px: pixels(p, s, em, root),
            pct: percent(p, s),
        },
        Declared::Auto => Value::Auto,
        Declared::Int(i) => Value::Int(i),
        Declared::Color { r, g, b, a } => Value::Color { r, g, b, a },
        Declared::Angle(n) => Value::Angle(n),
        Declared::Pair { x, y } => Value::Pair {
            x_px: pixels(p, x, em, root),
            x_pct: percent(p, x),
            y_px: pixels(p, y, em, root),
            y_pct: percent(p, y),
        },
        Declared::Absent => Value::Absent,
        Declared::Visible(v) => Value::Visible(v),
        Declared::Display(d) => Value::Display(d),
    }
}

#[tactic(auto, unfolding(crate::specs::Absolute::computed_opacity))]
fn opacity(n: Fix) -> Fix
    ensures { result ≡ computed_opacity n }
{
    Fix(clamp(i128::from(n.0), 0, Fix::ONE.0))
}

fn keeps(p: PropertyId, unit: Unit) -> bool
    ensures { result ≡ is_kept p unit }
{
    keeps_percent(p) && unit == Unit::Percent
}

fn percent(p: PropertyId, s: Size) -> Fix
    ensures { result ≡ percent_of p s }
{
    if keeps(p, s.unit) { s.amount } else { Fix(0) }
}

fn pixels(p: PropertyId, s: Size, em: Fix, root: Fix) -> Fix
    requires { IsWithinLimit s.amount }
    ensures { result ≡ pixels_of p em root s }
{
    if keeps(p, s.unit) {
        return Fix(0);
    }
    match s.unit {
        Unit::Px => s.amount,
        Unit::Em => times(s.amount, em, Fix::ONE.0),
        Unit::Rem => times(s.amount, root, Fix::ONE.0),
        Unit::Percent => times(s.amount, em, WHOLE),
    }
}

/// A part of a size, of which a whole has this many.
fn times(amount: Fix, size: Fix, whole: i64) -> Fix
    requires amount { IsWithinLimit amount }
    requires whole { pos 0 <ℤ whole }
    ensures { result ≡ size_times amount size whole }
{
    Fix(product(amount.0, size.0, whole))
}

/// The product, rounded and within the limit.
#[tactic(auto, unfolding(crate::specs::Absolute::product_within))]
fn product(a: i64, b: i64, whole: i64) -> i64
    requires first { unsigned_abs a ≤ MAX_NUMBER }
    requires whole { pos 0 <ℤ whole }
    ensures { result ≡ product_within a b whole }
{
    clamp(rounded_product(a, b, whole), -LIMIT, LIMIT)
}
