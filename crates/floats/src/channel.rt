// A channel's byte as a number from 0 to 1, and back.
ghost use Rattle.std.specs.Prelude.{◌≡◌};
ghost use Rattle.std.specs.Float.Ieee as Ieee;
ghost use Rattle.std.specs.Float.{binary32};
ghost use Rattle.floats.specs.Channel as Channel;
ghost use Rattle.floats.specs.Constants.{c255};

use crate::byte::{cut, to_byte};
use crate::order::clamp;

// resvg's `c as f32 / 255.0`, with no division.
pub fn normalized(c: u8) -> f32
    ensures { result ≡ Channel.normalized c }
{
    let x: f32 = c as f32;
    // 65793 / 2^24 and 65793 / 2^48: the first 24 binary digits of 1 / 255, and the next 24. Both products are exact.
    x * 0.003921568393707275 + x * 0.00000000023374369106932136
}

// resvg's `(f32_bound(0.0, c, 1.0) * 255.0) as u8`; a NaN gives 0.
pub fn from_normalized(c: f32) -> u8
    ensures { result ≡ Channel.from_normalized c }
{
    cut(clamp(c, 1.0) * 255.0)
}

// Rust's `(c * 255.0) as u8`.
pub fn scaled_to_byte(c: f32) -> u8
    ensures { result ≡ Ieee.to_unsigned 8 (Ieee.mul binary32 c c255) }
{
    to_byte(c * 255.0)
}
