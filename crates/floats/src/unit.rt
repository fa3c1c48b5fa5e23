// Whether a lent direction, or a lent cosine and sine, has length 1: the exact sum of squares against
// 1 - 1/1024 and 1 + 1/1024.
ghost use Rattle.std.specs.Prelude.{◌≡◌, ◌+◌, ◌^◌, ◌≤◌, T, nat_le};
ghost use Rattle.std.specs.Float.{binary64};
ghost use Rattle.std.specs.Float.Ieee.Scale.{finite};
ghost use Rattle.floats.specs.Unit.{in_units, squared, about_one, unit_pair, unit_triple};
ghost use Rattle.floats.specs.Inner.Steps.{plain, Falling, FewDigits, ExactSquare};

use crate::order::is_finite;

// Whether x * x + y * y differs from 1 by at most 1/1024, over the reals; false where one is not finite.
pub fn unit_pair(x: f32, y: f32) -> bool
    ensures { result ≡ unit_pair x y }
{
    unit_triple(x, y, 0.0)
}

// Whether x * x + y * y + z * z differs from 1 by at most 1/1024, over the reals; false where one is not finite.
pub fn unit_triple(x: f32, y: f32, z: f32) -> bool
    ensures { result ≡ unit_triple x y z }
{
    if !is_finite(x) {
        return false;
    }
    if !is_finite(y) {
        return false;
    }
    if !is_finite(z) {
        return false;
    }
    finite_triple(x, y, z)
}

// `unit_triple` of three finite numbers: their squares, exact in `f64`, in falling order.
fn finite_triple(x: f32, y: f32, z: f32) -> bool
    requires x_finite { T (finite x) }
    requires y_finite { T (finite y) }
    requires z_finite { T (finite z) }
    ensures { result ≡ about_one (2 ^ 288) (squared x + squared y + squared z) }
{
    let (hi, lo) = falling(square(x), square(y));
    let (hi, mid) = falling(hi, square(z));
    let (mid, lo) = falling(mid, lo);
    about_one(hi, mid, lo)
}

// The two, the larger first.
fn falling(a: f64, b: f64) -> (f64, f64)
    requires a_few { FewDigits a }
    requires b_few { FewDigits b }
    ensures { Falling a b result.0 result.1 }
{
    if b <= a { (a, b) } else { (b, a) }
}

// x * x, exactly.
fn square(x: f32) -> f64
    requires { T (finite x) }
    ensures { ExactSquare (squared x) result }
{
    let w: f64 = x as f64;
    w * w
}

// Whether hi + mid + lo is within 1/1024 of 1, exactly, for three squares of `f32` in falling order.
// Below a quarter the largest cannot do; from there on, what it leaves of each bound is exact.
fn about_one(hi: f64, mid: f64, lo: f64) -> bool
    requires hi_few { FewDigits hi }
    requires mid_plain { T (plain mid) }
    requires lo_plain { T (plain lo) }
    requires falling { (in_units binary64 lo ≤ in_units binary64 mid) × (in_units binary64 mid ≤ in_units binary64 hi) }
    ensures { result ≡ about_one (2 ^ 1064) (in_units binary64 hi + (in_units binary64 mid + in_units binary64 lo)) }
{
    if hi <= 1.0009765625 {
        if hi < 0.25 {
            false
        } else if sum_at_most(mid, lo, 1.0009765625 - hi) {
            if hi <= 0.9990234375 {
                sum_at_least(mid, lo, 0.9990234375 - hi)
            } else {
                true
            }
        } else {
            false
        }
    } else {
        false
    }
}

// Whether mid + lo <= most, exactly, for a lo that is no more than mid.
fn sum_at_most(mid: f64, lo: f64, most: f64) -> bool
    requires mid_plain { T (plain mid) }
    requires lo_plain { T (plain lo) }
    requires most_plain { T (plain most) }
    requires falling { in_units binary64 lo ≤ in_units binary64 mid }
    ensures { result ≡ nat_le (in_units binary64 mid + in_units binary64 lo) (in_units binary64 most) }
{
    mid <= most && lo <= most - mid
}

// Whether mid + lo >= least, exactly, for a lo that is no more than mid, and a mid of 2 at most.
fn sum_at_least(mid: f64, lo: f64, least: f64) -> bool
    requires mid_plain { T (plain mid) }
    requires lo_plain { T (plain lo) }
    requires least_plain { T (plain least) }
    requires falling { (in_units binary64 lo ≤ in_units binary64 mid) × (in_units binary64 mid ≤ 2 ^ 1075) }
    ensures { result ≡ nat_le (in_units binary64 least) (in_units binary64 mid + in_units binary64 lo) }
{
    if least <= mid {
        true
    } else if mid + mid < least {
        false
    } else {
        least - mid <= lo
    }
}
