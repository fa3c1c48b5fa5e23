// Convolve matrix: columns, rows, target_x, target_y, edge mode, whether alpha is preserved, divisor, bias and the kernel's
// numbers; the sheets are src and scratch.
use crate::called::{Called, NotCalled};
use crate::cases::Case;
use convolve_matrix::{ConvolveMatrix, EdgeMode};
use pool::Numbers;

// No fewer than the parameters of a case in the list.
const POOL: usize = 256;

// The parameters before the kernel's numbers.
const BEFORE: u32 = 8;

// The pool is the parameters.
pub fn call(case: Case, src: &mut [u8], scratch: &mut [u8]) -> Called {
    let matrix = matrix_of(case)?;
    let mut pool = [0.0f32; POOL];
    case.parameters.floats(&mut pool);
    Ok(convolve_matrix::apply(matrix, &pool, case.width, case.height, src, scratch))
}

// The kernel is the last of the parameters.
fn matrix_of(case: Case) -> Result<ConvolveMatrix, NotCalled> {
    let count = case.parameter_count;
    if count < BEFORE || POOL < count as usize {
        return Err(NotCalled::Misread);
    }
    let words = case.parameters;
    Ok(ConvolveMatrix {
        columns: words.word(0),
        rows: words.word(1),
        target_x: words.word(2),
        target_y: words.word(3),
        matrix: Numbers {
            start: BEFORE,
            count: count - BEFORE,
        },
        divisor: words.float(6),
        bias: words.float(7),
        edge_mode: EdgeMode::try_from(words.word(4)).map_err(|_| NotCalled::Unnamed)?,
        preserve_alpha: case.choice(5, 1)? == 1,
    })
}
