// Tests and bounds by order, and the absolute value.
ghost use Rattle.std.specs.Prelude.{◌≡◌};
ghost use Rattle.std.specs.Float.Ieee.Scale.{finite};
ghost use Rattle.floats.specs.Absolute.{absolute};
ghost use Rattle.floats.specs.Order as Order;
ghost use Rattle.floats.specs.Inner.Steps.{clamped};

use crate::float::Float;

// Whether x is a zero of either sign, or positive with bits at most 4: resvg's ulps test against zero.
pub fn near_zero(x: f32) -> bool
    ensures { result ≡ Order.near_zero x }
{
    within(0.0, x, f32::from_bits(4))
}

// resvg's `f32_bound`: max where val is above it, min where val is below it, else val. A NaN passes. The library's `clamp`
// wants min to be at most max.
pub fn bound(min: f32, val: f32, max: f32) -> f32
    ensures { result ≡ Order.bound min val max }
{
    if val > max {
        max
    } else if val < min {
        min
    } else {
        val
    }
}

// x brought to 0 to top; a NaN gives 0.
pub fn clamp(x: f32, top: f32) -> f32
    ensures { result ≡ clamped x top }
{
    if x > 0.0 {
        if x < top { x } else { top }
    } else {
        0.0
    }
}

// Whether lo <= x <= hi; false for a NaN.
pub fn within<F: Float>(lo: F, x: F, hi: F) -> bool
    ensures { result ≡ Order.within (F.value lo) (F.value x) (F.value hi) }
{
    lo <= x && x <= hi
}

// Whether x is neither an infinity nor a NaN.
pub fn is_finite<F: Float>(x: F) -> bool
    ensures { result ≡ finite (F.value x) }
{
    x.is_finite()
}

// Rust's `x.abs()`: the sign's bit is cut off, for a branch on it is dear where signs are random: by the library's `abs`
// 4.7 ns in place of 0.8.
pub fn abs64(x: f64) -> f64
    ensures { result ≡ absolute x }
{
    if x == x {
        f64::from_bits(f64::to_bits(x) % 0x8000_0000_0000_0000)
    } else {
        x
    }
}
