// The turbulence filter, as resvg's turbulence.rs, without stitching.
#![tactic(auto)]

mod draw;
mod lattice;
mod noise;
mod random;
mod tables;

ghost use Rattle.std.specs.Prelude.{◌≡◌};
ghost use Rattle.sheet.specs.Contract.{lent, Filtered};
ghost use Rattle.turbulence.specs.Turbulence.{both_within, all_finite, all_in_range, turbulence_answer, answer, drawn};

use sheet::Refusal;

// What to draw. `offset_x` and `offset_y` are the filter region's offset, `sx` and `sy` the canvas scale.
#[derive(Clone, Copy)]
pub struct Turbulence {
    pub offset_x: f64,
    pub offset_y: f64,
    pub sx: f64,
    pub sy: f64,
    pub base_frequency_x: f64,
    pub base_frequency_y: f64,
    pub num_octaves: u32,
    pub seed: i32,
    pub fractal_noise: bool,
}

// The most octaves.
const OCTAVE_LIMIT: u32 = 8;

fn all_finite(t: Turbulence) -> bool
    ensures { result ≡ all_finite t }
{
    [
        t.offset_x,
        t.offset_y,
        t.sx,
        t.sy,
        t.base_frequency_x,
        t.base_frequency_y,
    ]
    .iter()
    .all(|x| floats::is_finite(*x))
}

fn both_within(lo: f64, x: f64, y: f64, hi: f64) -> bool
    ensures { result ≡ both_within lo x y hi }
{
    floats::within(lo, x, hi) && floats::within(lo, y, hi)
}

fn all_in_range(t: Turbulence) -> bool
    ensures { result ≡ all_in_range t }
{
    let offsets = both_within(-4096.0, t.offset_x, t.offset_y, 4096.0);
    let scales = both_within(0.0625, t.sx, t.sy, 16.0);
    let frequencies = both_within(0.0, t.base_frequency_x, t.base_frequency_y, 16.0);
    offsets && scales && frequencies && t.num_octaves <= OCTAVE_LIMIT
}

// Tests 4 and 5.
pub fn test(t: Turbulence) -> Result<(), Refusal>
    ensures { result ≡ turbulence_answer t }
{
    if !all_finite(t) {
        return Err(Refusal::NotFinite);
    }
    if !all_in_range(t) {
        return Err(Refusal::Range);
    }
    Ok(())
}

// Applies a turbulence filter. It reads no sheet.
//
// `dest` pixels will have an unpremultiplied alpha.
pub fn apply(t: Turbulence, width: usize, height: usize, dest: &mut [u8]) -> Result<(), Refusal>
    ensures { Filtered (answer t width height dest.old) result (drawn t width height) (lent dest.old dest.new) }
{
    sheet::test(width, height, &[dest.len()])?;
    test(t)?;
    draw::draw(t, width, height, dest);
    Ok(())
}
