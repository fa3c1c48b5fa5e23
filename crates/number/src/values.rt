// What numbers stand for: floats by their bits, and signed numbers in two's complement.
ghost use Rattle.std.specs.Prelude.{◌≡◌, ◌+◌, ◌*◌, ◌/◌, ◌%◌};
ghost use Rattle.std.specs.Float.{binary32, binary64};
ghost use Rattle.std.specs.Float.Ieee.{of_bits, to_bits};
ghost use Rattle.number.specs.Values.{seed_of, seed_bits};

use std::num::{
    f32_from_bits_with_nan, f32_to_bits_with_nan, f64_from_bits_with_nan, f64_to_bits_with_nan,
};

// The `f32` of any bits; each of NaN's patterns gives a NaN.
pub fn float_of(bits: u32) -> f32
    ensures { result ≡ of_bits binary32 bits }
{
    f32_from_bits_with_nan(bits)
}

// The bits of any `f32`; a NaN's are 7fc00000.
pub fn bits_of(x: f32) -> u32
    ensures { result ≡ to_bits binary32 x }
{
    f32_to_bits_with_nan(x)
}

// The `f64` of the low and the high half of any bits; each of NaN's patterns gives a NaN.
pub fn double_of(low: u32, high: u32) -> f64
    ensures { result ≡ of_bits binary64 (low + 4294967296 * high) }
{
    f64_from_bits_with_nan(u64::from(low) + 4294967296 * u64::from(high))
}

// The low half of a double's bits; a NaN's bits are 7ff8000000000000.
pub fn low_half(x: f64) -> u32
    ensures { result ≡ to_bits binary64 x % 4294967296 }
{
    (f64_to_bits_with_nan(x) % 4294967296) as u32
}

// The high half of a double's bits.
pub fn high_half(x: f64) -> u32
    ensures { result ≡ to_bits binary64 x / 4294967296 }
{
    (f64_to_bits_with_nan(x) / 4294967296) as u32
}

// The number of which `bits` is the two's complement.
pub fn seed_of(bits: u32) -> i32
    ensures { result ≡ seed_of bits }
{
    bits.cast_signed()
}

// The two's complement of `seed`.
pub fn bits_of_seed(seed: i32) -> u32
    ensures { result ≡ seed_bits seed }
{
    seed.cast_unsigned()
}
