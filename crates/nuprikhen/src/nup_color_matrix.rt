// The colour matrix: a function for each of its cases.
ghost use Rattle.std.specs.Prelude.{[]};
ghost use Rattle.sheet.specs.Contract.{lent};
ghost use Rattle.color_matrix.specs.declared.ColorMatrix.TheVariants.{Matrix, Saturate, HueRotate, LuminanceToAlpha};
ghost use Rattle.nuprikhen.specs.Colours.{Recoloured};
ghost use Rattle.nuprikhen.specs.Numbers.{all_of};

use crate::numbers::all_of;
use crate::nup_answer;
use color_matrix::ColorMatrix;

// A case that reads no pool.
fn recolour(matrix: ColorMatrix, width: u32, height: u32, src: &mut [u8]) -> nup_answer
    ensures { Recoloured matrix [] width height result (lent src.old src.new) }
{
    nup_answer::from(color_matrix::apply(matrix, &[], width as usize, height as usize, src))
}

// A matrix of twenty numbers on straight colour, in place.
#[unsafe(no_mangle)]
pub extern "C" fn nup_color_matrix(width: u32, height: u32, m: &[f32], src: &mut [u8]) -> nup_answer
    ensures { Recoloured (Matrix (all_of m.now)) m.now width height result (lent src.old src.new) }
{
    let matrix = ColorMatrix::Matrix(all_of(m));
    nup_answer::from(color_matrix::apply(matrix, m, width as usize, height as usize, src))
}

// Saturation of straight colour, in place.
#[unsafe(no_mangle)]
pub extern "C" fn nup_saturate(width: u32, height: u32, v: f32, src: &mut [u8]) -> nup_answer
    ensures { Recoloured (Saturate v) [] width height result (lent src.old src.new) }
{
    recolour(ColorMatrix::Saturate(v), width, height, src)
}

// The hue of straight colour turned, in place, by the angle that has this cosine and this sine.
#[unsafe(no_mangle)]
pub extern "C" fn nup_hue_rotate(
    width: u32,
    height: u32,
    cosine: f32,
    sine: f32,
    src: &mut [u8],
) -> nup_answer
    ensures { Recoloured (HueRotate cosine sine) [] width height result (lent src.old src.new) }
{
    recolour(ColorMatrix::HueRotate(cosine, sine), width, height, src)
}

// No colour, and the luminance of straight colour as alpha, in place.
#[unsafe(no_mangle)]
pub extern "C" fn nup_luminance_to_alpha(width: u32, height: u32, src: &mut [u8]) -> nup_answer
    ensures { Recoloured LuminanceToAlpha [] width height result (lent src.old src.new) }
{
    recolour(ColorMatrix::LuminanceToAlpha, width, height, src)
}
