// Colour matrix: kind and its floats; the sheet is src.
use crate::called::{Called, NotCalled};
use crate::cases::Case;
use color_matrix::ColorMatrix;
use pool::Numbers;

// No fewer than the parameters of a Matrix in the list.
const POOL: usize = 64;

// The pool is the parameters, the kind first.
pub fn call(case: Case, src: &mut [u8]) -> Called {
    let matrix = matrix_of(case)?;
    let mut pool = [0.0f32; POOL];
    case.parameters.floats(&mut pool);
    Ok(color_matrix::apply(matrix, &pool, case.width, case.height, src))
}

fn matrix_of(case: Case) -> Result<ColorMatrix, NotCalled> {
    match case.parameters.word(0) {
        0 => Ok(ColorMatrix::Matrix(numbers(case.parameter_count)?)),
        1 => {
            case.parameters_are(2)?;
            Ok(ColorMatrix::Saturate(case.parameters.float(1)))
        }
        2 => {
            case.parameters_are(3)?;
            let cosine = case.parameters.float(1);
            let sine = case.parameters.float(2);
            Ok(ColorMatrix::HueRotate(cosine, sine))
        }
        3 => {
            case.parameters_are(1)?;
            Ok(ColorMatrix::LuminanceToAlpha)
        }
        _ => Err(NotCalled::Unnamed),
    }
}

// The numbers of a Matrix of so many parameters.
fn numbers(parameter_count: u32) -> Result<Numbers, NotCalled> {
    if parameter_count == 0 || POOL < parameter_count as usize {
        return Err(NotCalled::Misread);
    }
    Ok(Numbers {
        start: 1,
        count: parameter_count - 1,
    })
}
