// The colour matrix filter, as resvg's color_matrix.rs.
#![tactic(auto)]

mod coefficients;
mod loops;
mod pixel;

ghost use Rattle.std.specs.Prelude.{◌≡◌, ◌%◌, length};
ghost use Rattle.sheet.specs.Answer.{Done};
ghost use Rattle.sheet.specs.Contract.{lent, Filtered};
ghost use Rattle.color_matrix.specs.ColorMatrix.{twenty_answer, saturate_answer, rotation_answer, matrix_answer, answer, recoloured};

pub use pixel::{ColourRow, Components, Row};
use pool::Numbers;
use sheet::Refusal;

// What to apply. The twenty numbers of a Matrix stand in a lent pool; HueRotate takes a cosine and a sine.
#[derive(Clone, Copy)]
pub enum ColorMatrix {
    Matrix(Numbers),
    Saturate(f32),
    HueRotate(f32, f32),
    LuminanceToAlpha,
}

// Tests 4 and 5 of a cosine and a sine.
fn test_rotation(cosine: f32, sine: f32) -> Result<(), Refusal>
    ensures { result ≡ rotation_answer cosine sine }
{
    if !floats::is_finite(cosine) {
        return Err(Refusal::NotFinite);
    }
    if !floats::is_finite(sine) {
        return Err(Refusal::NotFinite);
    }
    if !floats::unit_pair(cosine, sine) {
        return Err(Refusal::Range);
    }
    Ok(())
}

fn test_saturate(v: f32) -> Result<(), Refusal>
    ensures { result ≡ saturate_answer v }
{
    pool::test(&[v])
}

fn test_matrix(numbers: Numbers, pool: &[f32]) -> Result<(), Refusal>
    ensures { result ≡ twenty_answer numbers pool.now }
{
    if numbers.count != 20 {
        return Err(Refusal::Shape);
    }
    numbers.test(pool)
}

// Tests 3, 4 and 5.
pub fn test(matrix: ColorMatrix, pool: &[f32]) -> Result<(), Refusal>
    ensures { result ≡ matrix_answer matrix pool.now }
{
    match matrix {
        ColorMatrix::Matrix(numbers) => test_matrix(numbers, pool),
        ColorMatrix::Saturate(v) => test_saturate(v),
        ColorMatrix::HueRotate(cosine, sine) => test_rotation(cosine, sine),
        ColorMatrix::LuminanceToAlpha => Ok(()),
    }
}

// Applies a colour matrix to pixels whose number passed the tests.
fn apply_tested(matrix: ColorMatrix, pool: &[f32], src: &mut [u8])
    requires pool_value { matrix_answer matrix pool.now ≡ Done }
    requires src_len { length src.old % 4 ≡ 0 }
    ensures { src.new ≡ recoloured matrix pool.now src.old }
{
    match matrix {
        ColorMatrix::Matrix(numbers) => loops::matrix(numbers.part(pool), src),
        ColorMatrix::Saturate(v) => {
            let m = coefficients::saturation(v);
            loops::colours(&m, src);
        }
        ColorMatrix::HueRotate(cosine, sine) => {
            let m = coefficients::rotation(cosine, sine);
            loops::colours(&m, src);
        }
        ColorMatrix::LuminanceToAlpha => loops::luminance(src),
    }
}

// Applies a colour matrix filter in place.
//
// Pixels should have an unpremultiplied alpha. The pool is read for a Matrix alone.
pub fn apply(
    matrix: ColorMatrix,
    pool: &[f32],
    width: usize,
    height: usize,
    src: &mut [u8],
) -> Result<(), Refusal>
    ensures { Filtered (answer matrix pool.now width height src.old) result (recoloured matrix pool.now src.old) (lent src.old src.new) }
{
    sheet::test(width, height, &[src.len()])?;
    test(matrix, pool)?;
    apply_tested(matrix, pool, src);
    Ok(())
}
