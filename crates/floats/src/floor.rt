// Rounding down.
ghost use Rattle.std.specs.Prelude.{◌≡◌};
ghost use Rattle.floats.specs.Floor.{floor_to};

use crate::byte::to_byte;

// Rust's `x.floor() as u8`: 0 for a NaN and below 0, 255 from 255 on.
pub fn floor_to_byte(x: f32) -> u8
    ensures { result ≡ floor_to 8 x }
{
    to_byte(x)
}
