// The convolve matrix, with the edge mode and whether alpha is preserved as numbers.
ghost use Rattle.std.specs.Prelude.{◌≡◌};
ghost use Rattle.sheet.specs.Contract.{lent, read_only, Filtered, Cleared};
ghost use Rattle.convolve_matrix.specs.ConvolveMatrix.{convolved};
ghost use Rattle.nuprikhen.specs.Convolving.{edge_of, named_edge, convolve_answer, matrix_of, Convolved};

use crate::numbers::all_of;
use crate::nup_answer;
use convolve_matrix::{ConvolveMatrix, EdgeMode};
use sheet::Refusal;

fn edge_of(edge: u8) -> EdgeMode
    ensures { result ≡ edge_of edge }
{
    EdgeMode::try_from(u32::from(edge)).unwrap_or(EdgeMode::Wrap)
}

// Test 5 of the two numbers.
fn test_named(edge: u8, preserve: u8) -> Result<(), Refusal>
    ensures { result ≡ named_edge edge preserve }
{
    if EdgeMode::try_from(u32::from(edge)).is_err() {
        return Err(Refusal::Range);
    }
    if 1 < preserve {
        return Err(Refusal::Range);
    }
    Ok(())
}

// The filter, where the test of the two numbers answered `named`; they are refused after all else. The filter makes its tests
// itself, so that a kernel is tested once.
fn apply_named(
    named: Result<(), Refusal>,
    matrix: ConvolveMatrix,
    kernel: &[f32],
    width: usize,
    height: usize,
    src: &mut [u8],
    scratch: &mut [u8],
) -> Result<(), Refusal>
    ensures filtered { Filtered (convolve_answer named matrix kernel.now width height src.old scratch.old) result (convolved matrix kernel.now width height src.old) (lent src.old src.new) }
    ensures cleared { Cleared 0 (convolve_answer named matrix kernel.now width height src.old scratch.old) (lent scratch.old scratch.new) }
{
    if let Err(refusal) = named {
        sheet::test(width, height, &[src.len(), scratch.len()])?;
        convolve_matrix::test(matrix, kernel)?;
        return Err(refusal);
    }
    convolve_matrix::apply(matrix, kernel, width, height, src, scratch)
}

// A convolve matrix in place; edge 0 is None, 1 Duplicate and 2 Wrap, and preserve_alpha is 0 or 1.
#[unsafe(no_mangle)]
pub extern "C" fn nup_convolve_matrix(
    width: u32,
    height: u32,
    columns: u32,
    rows: u32,
    target_x: u32,
    target_y: u32,
    kernel: &[f32],
    divisor: f32,
    bias: f32,
    edge: u8,
    preserve_alpha: u8,
    src: &mut [u8],
    scratch: &mut [u8],
) -> nup_answer
    ensures { Convolved (named_edge edge preserve_alpha) (matrix_of columns rows target_x target_y kernel.now divisor bias edge preserve_alpha) (read_only kernel.now) width height result (lent src.old src.new) (lent scratch.old scratch.new) }
{
    let matrix = ConvolveMatrix {
        columns,
        rows,
        target_x,
        target_y,
        matrix: all_of(kernel),
        divisor,
        bias,
        edge_mode: edge_of(edge),
        preserve_alpha: preserve_alpha == 1,
    };
    nup_answer::from(apply_named(
        test_named(edge, preserve_alpha),
        matrix,
        kernel,
        width as usize,
        height as usize,
        src,
        scratch,
    ))
}
