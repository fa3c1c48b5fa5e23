// Test 3 of a writing: each range of a step lies in the pool.
ghost use Rattle.std.specs.Prelude.{◌≡◌, ◌≤◌};
ghost use Rattle.recipe.specs.Tests.{step_of, step_limit};
ghost use Rattle.message.specs.Answers.{all_in_lem, matrix_ranges, function_ranges, ranges_of, ranges_answer};

use crate::MessageError;
use color_matrix::ColorMatrix;
use component_transfer::TransferFunction;
use recipe::{Recipe, Work};

fn matrix_in(matrix: ColorMatrix, n: usize) -> bool
    ensures { result ≡ all_in_lem (matrix_ranges matrix) n }
{
    match matrix {
        ColorMatrix::Matrix(range) => range.is_in(n),
        ColorMatrix::Saturate(_) => true,
        ColorMatrix::HueRotate(_, _) => true,
        ColorMatrix::LuminanceToAlpha => true,
    }
}

fn function_in(function: TransferFunction, n: usize) -> bool
    ensures { result ≡ all_in_lem (function_ranges function) n }
{
    match function {
        TransferFunction::Identity => true,
        TransferFunction::Table(range) => range.is_in(n),
        TransferFunction::Discrete(range) => range.is_in(n),
        TransferFunction::Linear(_, _) => true,
    }
}

#[tactic(auto, using(crate::proofs::FirstSteps::all_append))]
fn functions_in(
    r: TransferFunction,
    g: TransferFunction,
    b: TransferFunction,
    a: TransferFunction,
    n: usize,
) -> bool
    ensures { result ≡ all_in_lem (ranges_of (Work.ComponentTransfer 0 r g b a)) n }
{
    function_in(r, n) && function_in(g, n) && function_in(b, n) && function_in(a, n)
}

// Whether all ranges of the work lie in a pool of n numbers.
fn ranges_in(work: Work, n: usize) -> bool
    ensures { result ≡ all_in_lem (ranges_of work) n }
{
    match work {
        Work::ColorMatrix(_, matrix) => matrix_in(matrix, n),
        Work::ComponentTransfer(_, r, g, b, a) => functions_in(r, g, b, a, n),
        Work::ConvolveMatrix(_, matrix) => matrix.matrix.is_in(n),
        _ => true,
    }
}

// The steps in order: 3 at the first with a range outside a pool of n numbers.
pub fn test_ranges(recipe: Recipe, n: usize) -> Result<(), MessageError>
    requires { recipe.count ≤ step_limit }
    ensures { result ≡ ranges_answer (step_of recipe) n recipe.count }
{
    for i in 0..recipe.count {
        if !ranges_in(recipe.steps[i].work, n) {
            return Err(MessageError::Shape(i as u8));
        }
    }
    Ok(())
}
