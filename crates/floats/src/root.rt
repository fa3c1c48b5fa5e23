// The square root, and the roots of a whole slice.
ghost use Rattle.std.specs.Prelude.{◌≡◌};
ghost use Rattle.floats.specs.Root.{sqrt_of, first_roots};

use crate::float::Float;

// Rust's `x.sqrt()`: rounded once; a NaN below zero.
pub fn sqrt<F: Float>(x: F) -> F
    ensures { F.value result ≡ sqrt_of F.format (F.value x) }
{
    x.sqrt()
}

// The first n numbers of a slice become their square roots.
pub fn roots(values: &mut [f32], n: usize)
    ensures { values.new ≡ first_roots n values.old }
{
    let end = n.min(values.len());
    for i in 0..end {
        values[i] = sqrt(values[i]);
    }
}
