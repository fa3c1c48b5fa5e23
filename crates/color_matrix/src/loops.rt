// Each kind of matrix over a sheet, pixel by pixel.
ghost use Rattle.std.specs.Prelude.{◌≡◌, ◌%◌, length};
ghost use Rattle.color_matrix.specs.ColorMatrix as ColorMatrix;

use crate::pixel;
use sheet::pixel::map_pixels;

// A matrix of four rows and five columns.
pub fn matrix(m: &[f32], src: &mut [u8])
    requires m_len { length m.now ≡ 20 }
    requires src_len { length src.old % 4 ≡ 0 }
    ensures { src.new ≡ ColorMatrix.matrixed m.now src.old }
{
    let r = pixel::matrix_row(m, 0);
    let g = pixel::matrix_row(m, 1);
    let b = pixel::matrix_row(m, 2);
    let a = pixel::matrix_row(m, 3);
    map_pixels(src, |p| pixel::matrix_pixel(r, g, b, a, p));
}

// A matrix of the three colours.
pub fn colours(m: &[f32], src: &mut [u8])
    requires m_len { length m.now ≡ 9 }
    requires src_len { length src.old % 4 ≡ 0 }
    ensures { src.new ≡ ColorMatrix.coloured m.now src.old }
{
    let r = pixel::colour_row(m, 0);
    let g = pixel::colour_row(m, 1);
    let b = pixel::colour_row(m, 2);
    map_pixels(src, |p| pixel::colour_pixel(r, g, b, p));
}

// The luminance as alpha.
pub fn luminance(src: &mut [u8])
    requires { length src.old % 4 ≡ 0 }
    ensures { src.new ≡ ColorMatrix.luminance_to_alpha src.old }
{
    map_pixels(src, |p| pixel::luminance_pixel(p));
}
