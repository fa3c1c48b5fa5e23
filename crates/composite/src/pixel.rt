// One pixel of an arithmetic composition.
ghost use Rattle.std.specs.Prelude.{◌≡◌, cond};
ghost use Rattle.floats.specs.Order.{near_zero};
ghost use Rattle.composite.specs.Arithmetic as Arithmetic;
ghost use Rattle.composite.specs.Inner.Pixels.{WithAlpha, Composed};

use sheet::pixel::Premultiplied;

// What each product counts for.
#[derive(Clone, Copy)]
pub struct Factors {
    pub k1: f32,
    pub k2: f32,
    pub k3: f32,
    pub k4: f32,
}

fn calc(k: Factors, i1: u8, i2: u8, max: f32) -> f32
    ensures { result ≡ Arithmetic.calc k i1 i2 max }
{
    let i1 = floats::normalized(i1);
    let i2 = floats::normalized(i2);
    floats::bound(0.0, k.k1 * i1 * i2 + k.k2 * i1 + k.k3 * i2 + k.k4, max)
}

// A colour, at most the new alpha a.
fn colour(k: Factors, i1: u8, i2: u8, a: f32) -> u8
    ensures { result ≡ Arithmetic.colour k i1 i2 a }
{
    floats::scaled_to_byte(calc(k, i1, i2, a))
}

// The pixel of the new alpha a.
fn with_alpha(k: Factors, c1: Premultiplied, c2: Premultiplied, a: f32) -> Premultiplied
    ensures { WithAlpha k c1.number c2.number a result.number }
{
    Premultiplied::of(
        colour(k, c1.red(), c2.red(), a),
        colour(k, c1.green(), c2.green(), a),
        colour(k, c1.blue(), c2.blue(), a),
        floats::scaled_to_byte(a),
    )
}

// A pixel, or the clear one where its alpha a is near zero.
fn unless_clear(a: f32, pixel: Premultiplied) -> Premultiplied
    ensures { result.number ≡ cond (near_zero a) 0 pixel.number }
{
    if floats::near_zero(a) {
        Premultiplied::numbered(0)
    } else {
        pixel
    }
}

pub fn composed(k: Factors, c1: Premultiplied, c2: Premultiplied) -> Premultiplied
    ensures { Composed k c1.number c2.number result.number }
{
    let a = calc(k, c1.alpha(), c2.alpha(), 1.0);
    unless_clear(a, with_alpha(k, c1, c2, a))
}
