// A float cut to a byte.
ghost use Rattle.std.specs.Prelude.{◌≡◌, T};
ghost use Rattle.std.specs.Float.Ieee as Ieee;
ghost use Rattle.floats.specs.Inner.Steps.{up_to};

use crate::order::clamp;

// Rust's `x as u8`: toward zero, 0 for a NaN and below 0, 255 from 255 on.
pub fn to_byte(x: f32) -> u8
    ensures { result ≡ Ieee.to_unsigned 8 x }
{
    cut(clamp(x, 255.0))
}

// `z as u8` of a z from 0 to 255.
pub fn cut(z: f32) -> u8
    requires { T (up_to 255 z) }
    ensures { result ≡ Ieee.to_unsigned 8 z }
{
    // z + 2^23 has the whole number nearest to z in its low bits; it may be one above z.
    let t: f32 = z + 8388608.0;
    let n: u32 = f32::to_bits(t) - 0x4b00_0000;
    let v: u32 = if t - 8388608.0 > z { n - 1 } else { n };
    v as u8
}
