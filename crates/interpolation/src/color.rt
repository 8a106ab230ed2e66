//! Colours at an output, by premultiplied channels (CSS Color 4, "Interpolating with Alpha").
ghost use Rattle.std.specs.Prelude.{◌≡◌, ◌≤◌, ◌*◌, ◌^◌, pos, ◌*ℤ◌, ◌<ℤ◌, ◌≤ℤ◌, unsigned_abs};
ghost use Rattle.value_types.specs.Validity.{IsAlpha};
ghost use Rattle.interpolation.specs.Colors.{alpha_between, channel_between, straight_channel, color_with, premultiplied_channel, premultiplied_between};

use crate::number::on_the_way;
use fix_num::{Bill, Fix, clamp, rnd};
use value_types::Value;

/// The channels of sRGB and the alpha of a colour.
#[derive(Clone, Copy)]
pub(crate) struct Rgba {
    pub(crate) r: u8,
    pub(crate) g: u8,
    pub(crate) b: u8,
    pub(crate) a: Fix,
}

/// The colour at output `q`.
#[tactic(auto, unfolding(crate::specs::Colors::color_with))]
pub(crate) fn rgba_between(from: Rgba, to: Rgba, q: Bill) -> Value
    requires from { IsAlpha from.a }
    requires to { IsAlpha to.a }
    requires output { unsigned_abs q.0 ≤ 4 * 10 ^ 10 }
    ensures { result ≡ color_with from.r from.g from.b from.a to.r to.g to.b to.a q.0 (alpha_between from.a to.a q.0) }
{
    let alpha = alpha_between(from.a, to.a, q);
    if alpha.0 == 0 {
        return Value::Color {
            r: 0,
            g: 0,
            b: 0,
            a: Fix(0),
        };
    }
    with_alpha(from, to, q, alpha)
}

/// The colour at output `q`, where the alpha there is this one and isn't 0.
fn with_alpha(from: Rgba, to: Rgba, q: Bill, alpha: Fix) -> Value
    requires from { IsAlpha from.a }
    requires to { IsAlpha to.a }
    requires output { unsigned_abs q.0 ≤ 4 * 10 ^ 10 }
    requires alpha { IsAlpha alpha }
    requires some { pos 0 <ℤ alpha.0 }
    ensures { result ≡ Value.Color
        (channel_between from.r from.a to.r to.a q.0 alpha)
        (channel_between from.g from.a to.g to.a q.0 alpha)
        (channel_between from.b from.a to.b to.a q.0 alpha)
        alpha }
{
    Value::Color {
        r: channel_between(from.r, from.a, to.r, to.a, q, alpha),
        g: channel_between(from.g, from.a, to.g, to.a, q, alpha),
        b: channel_between(from.b, from.a, to.b, to.a, q, alpha),
        a: alpha,
    }
}

/// The channel at output `q` on the way from `c` with alpha `a` to `d` with alpha `b`.
fn channel_between(c: u8, a: Fix, d: u8, b: Fix, q: Bill, alpha: Fix) -> u8
    requires from { IsAlpha a }
    requires to { IsAlpha b }
    requires output { unsigned_abs q.0 ≤ 4 * 10 ^ 10 }
    requires alpha { IsAlpha alpha }
    requires some { pos 0 <ℤ alpha.0 }
    ensures { result ≡ channel_between c a d b q.0 alpha }
{
    channel_of(
        premultiplied_between(premultiplied(c, a), premultiplied(d, b), q),
        alpha,
    )
}

/// The alpha at output `q`.
#[tactic(auto, unfolding(crate::specs::Colors::alpha_between))]
fn alpha_between(a: Fix, b: Fix, q: Bill) -> Fix
    requires from { IsAlpha a }
    requires to { IsAlpha b }
    requires output { unsigned_abs q.0 ≤ 4 * 10 ^ 10 }
    ensures value { result ≡ alpha_between a b q.0 }
    ensures alpha { IsAlpha result }
{
    Fix(clamp(on_the_way(a.0, b.0, q.0), 0, Fix::ONE.0))
}

/// The channel multiplied by its alpha.
fn premultiplied(c: u8, alpha: Fix) -> i64
    requires { IsAlpha alpha }
    ensures value { result ≡ premultiplied_channel c alpha }
    ensures size { unsigned_abs result ≤ 255 * 10 ^ 6 }
{
    i64::from(c) * alpha.0
}

/// The premultiplied channel at output `q` on the way from `c` to `d`, in billionths.
fn premultiplied_between(c: i64, d: i64, q: Bill) -> i128
    requires from { unsigned_abs c ≤ 255 * 10 ^ 6 }
    requires to { unsigned_abs d ≤ 255 * 10 ^ 6 }
    requires output { unsigned_abs q.0 ≤ 4 * 10 ^ 10 }
    ensures value { result ≡ premultiplied_between c d q.0 }
    ensures size { unsigned_abs result ≤ 10 ^ 20 }
{
    i128::from(c) * i128::from(Bill::ONE.0) + scaled(d - c, q.0)
}

/// The difference at output `q`, in billionths.
fn scaled(difference: i64, q: i64) -> i128
    requires difference { unsigned_abs difference ≤ 510 * 10 ^ 6 }
    requires output { unsigned_abs q ≤ 4 * 10 ^ 10 }
    ensures value { result ≡ difference *ℤ q }
    ensures size { unsigned_abs result ≤ 204 * 10 ^ 17 }
{
    i128::from(difference) * i128::from(q)
}

/// The channel that is `v` billionths when it is premultiplied with the alpha.
#[tactic(auto, unfolding(crate::specs::Colors::straight_channel))]
fn channel_of(v: i128, alpha: Fix) -> u8
    requires size { unsigned_abs v ≤ 10 ^ 20 }
    requires alpha { IsAlpha alpha }
    requires some { pos 0 <ℤ alpha.0 }
    ensures { result ≡ straight_channel v alpha }
{
    let one = i128::from(Bill::ONE.0) * i128::from(alpha.0);
    clamp(rnd(v, one), 0, 255) as u8
}
