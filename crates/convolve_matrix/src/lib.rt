// The convolve matrix filter, as resvg's convolve_matrix.rs.
#![tactic(auto)]

mod edge;
mod pixel;
mod rows;
mod sheets;
mod strip;

ghost use Rattle.std.specs.Prelude.{◌≡◌};
ghost use Rattle.sheet.specs.Contract.{lent, Filtered, Cleared};
ghost use Rattle.convolve_matrix.specs.ConvolveMatrix.{is_side, is_divisor, is_kernel, are_finite, are_in_range, kernel_answer, answer, convolved};

pub use edge::{EdgeMode, UnknownEdgeMode};
use pool::Numbers;
use sheet::Refusal;
use strip::Convolution;

// What to apply. The kernel's numbers, row by row, stand in a lent pool.
#[derive(Clone, Copy)]
pub struct ConvolveMatrix {
    pub columns: u32,
    pub rows: u32,
    pub target_x: u32,
    pub target_y: u32,
    pub matrix: Numbers,
    pub divisor: f32,
    pub bias: f32,
    pub edge_mode: EdgeMode,
    pub preserve_alpha: bool,
}

// The most rows and the most columns of a kernel.
const KERNEL_LIMIT: u32 = 15;

// The largest size of a number, and the smallest of a divisor.
const NUMBER_LIMIT: f32 = 65536.0;

const DIVISOR_LEAST: f32 = 0.0000152587890625;

// Whether a side of the kernel is within 1..=KERNEL_LIMIT, and the target within the side.
#[tactic(auto, unfolding(crate::specs::ConvolveMatrix::is_side))]
fn is_side(n: u32, target: u32) -> bool
    ensures { result ≡ is_side n target }
{
    n <= KERNEL_LIMIT && target < n
}

fn is_divisor(divisor: f32) -> bool
    ensures { result ≡ is_divisor divisor }
{
    floats::within(DIVISOR_LEAST, divisor, NUMBER_LIMIT)
        || floats::within(-NUMBER_LIMIT, divisor, -DIVISOR_LEAST)
}

impl ConvolveMatrix {
    // Test 3, of a pool of n numbers.
    #[tactic(auto, unfolding(crate::specs::ConvolveMatrix::is_kernel))]
    fn is_kernel(self, n: usize) -> bool
        ensures { result ≡ is_kernel self n }
    {
        is_side(self.columns, self.target_x)
            && is_side(self.rows, self.target_y)
            && self.matrix.count == self.rows * self.columns
            && self.matrix.is_in(n)
    }

    // Test 4.
    #[tactic(auto, unfolding(crate::specs::ConvolveMatrix::are_finite))]
    fn are_finite(self, kernel: &[f32]) -> bool
        ensures { result ≡ are_finite self kernel.now }
    {
        pool::all_finite(kernel) && floats::is_finite(self.divisor) && floats::is_finite(self.bias)
    }

    // Test 5.
    #[tactic(auto, unfolding(crate::specs::ConvolveMatrix::are_in_range))]
    fn are_in_range(self, kernel: &[f32]) -> bool
        ensures { result ≡ are_in_range self kernel.now }
    {
        pool::all_in_range(kernel) && is_divisor(self.divisor) && pool::is_number(self.bias)
    }
}

// Tests 3, 4 and 5.
#[tactic(auto, unfolding(crate::specs::ConvolveMatrix::kernel_answer))]
pub fn test(matrix: ConvolveMatrix, pool: &[f32]) -> Result<(), Refusal>
    ensures { result ≡ kernel_answer matrix pool.now }
{
    let kernel = matrix.matrix.part(pool);
    if !matrix.is_kernel(pool.len()) {
        return Err(Refusal::Shape);
    }
    if !matrix.are_finite(kernel) {
        return Err(Refusal::NotFinite);
    }
    if !matrix.are_in_range(kernel) {
        return Err(Refusal::Range);
    }
    Ok(())
}

// Applies a convolve matrix in place: the result is worked out from a copy in `scratch`.
//
// `src` pixels should have a premultiplied alpha, or a straight one where alpha is preserved, and will have a
// premultiplied one. `scratch` is as long as `src`, and all zero afterwards.
pub fn apply(
    matrix: ConvolveMatrix,
    pool: &[f32],
    width: usize,
    height: usize,
    src: &mut [u8],
    scratch: &mut [u8],
) -> Result<(), Refusal>
    ensures filtered { Filtered (answer matrix pool.now width height src.old scratch.old) result (convolved matrix pool.now width height src.old) (lent src.old src.new) }
    ensures cleared { Cleared 0 (answer matrix pool.now width height src.old scratch.old) (lent scratch.old scratch.new) }
{
    sheet::test(width, height, &[src.len(), scratch.len()])?;
    test(matrix, pool)?;
    sheet::copy(src, scratch);
    let convolution = Convolution {
        matrix,
        kernel: matrix.matrix.part(pool),
        width,
        height,
        src: scratch,
    };
    convolution.convolve_into(src);
    sheet::clear(scratch);
    Ok(())
}
