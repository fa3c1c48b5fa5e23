// Where a position lies on the lattice.
ghost use Rattle.std.specs.Prelude.{◌≡◌, ◌<◌, T};
ghost use Rattle.floats.specs.Inner.Steps.{up_to};
ghost use Rattle.turbulence.specs.Noise as Noise;
ghost use Rattle.turbulence.specs.Inner.Places.{Placed};

// A position's cell, and what it is beyond it.
#[derive(Clone, Copy)]
pub struct Place {
    pub cell: usize,
    pub fraction: f64,
}

// n modulo 256, into 0..=255.
fn wrapped(n: i32) -> usize
    ensures { (result ≡ Noise.wrapped n) × (result < 256) }
{
    n.rem_euclid(256) as usize
}

// The lattice position of t, cut toward zero.
pub fn cell(t: f64) -> usize
    ensures { (result ≡ Noise.cell t) × (result < 256) }
{
    wrapped(floats::to_i32(t))
}

// t less its whole part.
pub fn fraction(t: f64) -> f64
    ensures { result ≡ Noise.fraction t }
{
    t - floats::whole_part(t)
}

// The place of a t from 0 to 2^31 - 1.
fn near_place(t: f64) -> Place
    requires { T (up_to 2147483647 t) }
    ensures { Placed t result }
{
    // t + 2^52 has the whole number nearest to t in its low bits; it may be one above t.
    let raised: f64 = t + 4503599627370496.0;
    let nearest: f64 = raised - 4503599627370496.0;
    let n: u64 = f64::to_bits(raised) - 0x4330_0000_0000_0000;
    if t < nearest {
        let below = n - 1;
        Place {
            cell: (below % 256) as usize,
            fraction: t - (nearest - 1.0),
        }
    } else {
        Place {
            cell: (n % 256) as usize,
            fraction: t - nearest,
        }
    }
}

// The place of any t; within 0 to 2^31 - 1 the way is short.
pub fn place_of(t: f64) -> Place
    ensures { Placed t result }
{
    if t > 0.0 && t < 2147483647.0 {
        near_place(t)
    } else {
        Place {
            cell: cell(t),
            fraction: fraction(t),
        }
    }
}
