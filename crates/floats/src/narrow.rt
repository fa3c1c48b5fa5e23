// An `f64` rounded to an `f32`.
ghost use Rattle.std.specs.Prelude.{◌≡◌, ◌≤◌, from_bits};
ghost use Rattle.std.specs.Float.{binary32, binary64};
ghost use Rattle.floats.specs.Narrow.{narrow_to};

// Rust's `x as f32`: to the nearest, a tie to the even one; a NaN stays one. By the library's
// `nearest_f64_to_f32_with_nan` it takes 10.8 ns in place of 2.6.
pub fn to_f32(x: f64) -> f32
    ensures { result ≡ narrow_to binary32 x }
{
    if x == x {
        let b: u64 = f64::to_bits(x);
        let size: u32 = narrowed(b % 0x8000_0000_0000_0000);
        // The sign is added, for a branch on it is dear where signs are random.
        let sign: u32 = ((b / 0x8000_0000_0000_0000) as u32) * 0x8000_0000;
        f32::from_bits(sign + size)
    } else {
        0.0f32 / 0.0f32
    }
}

// The pattern of the `f32` nearest to the `f64` of the pattern b, which has no sign and is no NaN's.
fn narrowed(b: u64) -> u32
    requires { b ≤ 9218868437227405312 }
    ensures is { narrow_to binary32 (from_bits binary64 b) ≡ from_bits binary32 result }
    ensures small { result ≤ 2139095040 }
{
    if b < 0x3810_0000_0000_0000 {
        // Below 2^-126 the last digit is 2^-149, which is the last digit of a sum with 2^-97.
        (f64::to_bits(f64::from_bits(b) + 6.310887241768095e-30) - 0x39e0_0000_0000_0000) as u32
    } else if b < 0x47f0_0000_0000_0000 {
        // 29 digits fall away, and the exponent counts from 896 less.
        ((b + 0x0fff_ffff + b / 0x2000_0000 % 2) / 0x2000_0000 - 0x1_c000_0000) as u32
    } else {
        0x7f80_0000
    }
}
