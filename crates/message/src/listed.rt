// Steps with lists of numbers: colour matrix, component transfer, convolve matrix.
ghost use Rattle.std.specs.Prelude.{◌≡◌, ◌≤◌};
ghost use Rattle.message.specs.Inner.Reading.{MatrixTaken, FunctionTaken, FormTaken};

use crate::codes::edge_by;
use crate::lists::{Pool, numbers};
use crate::rows::{ANY, row};
use color_matrix::ColorMatrix;
use component_transfer::TransferFunction;
use convolve_matrix::ConvolveMatrix;
use number::{Reader, Wrong, float_of};
use recipe::{Step, Work};

// Takes a kind of colour matrix, and what it calls for.
fn matrix(reader: &mut Reader, pool: &mut Pool) -> Result<ColorMatrix, Wrong>
    requires { pool.old.used ≤ reader.old.at }
    ensures same { (reader.new.message ≡ reader.old.message) × (pool.new.numbers.ghost_name ≡ pool.old.numbers.ghost_name) }
    ensures taken { MatrixTaken reader.old reader.new pool.old pool.new result }
{
    let at = reader.at;
    match reader.number()? {
        0 => Ok(ColorMatrix::Matrix(numbers(reader, pool)?)),
        1 => {
            let [value] = row(reader, [ANY])?;
            Ok(ColorMatrix::Saturate(float_of(value)))
        }
        2 => {
            let [cosine, sine] = row(reader, [ANY, ANY])?;
            Ok(ColorMatrix::HueRotate(float_of(cosine), float_of(sine)))
        }
        3 => Ok(ColorMatrix::LuminanceToAlpha),
        _ => Err(Wrong { at }),
    }
}

// Takes a kind of transfer function, and what it calls for.
fn function(reader: &mut Reader, pool: &mut Pool) -> Result<TransferFunction, Wrong>
    requires { pool.old.used ≤ reader.old.at }
    ensures same { (reader.new.message ≡ reader.old.message) × (pool.new.numbers.ghost_name ≡ pool.old.numbers.ghost_name) }
    ensures taken { FunctionTaken reader.old reader.new pool.old pool.new result }
{
    let at = reader.at;
    match reader.number()? {
        0 => Ok(TransferFunction::Identity),
        1 => Ok(TransferFunction::Table(numbers(reader, pool)?)),
        2 => Ok(TransferFunction::Discrete(numbers(reader, pool)?)),
        3 => {
            let [slope, intercept] = row(reader, [ANY, ANY])?;
            Ok(TransferFunction::Linear(float_of(slope), float_of(intercept)))
        }
        _ => Err(Wrong { at }),
    }
}

pub fn color_matrix(reader: &mut Reader, pool: &mut Pool) -> Result<Step, Wrong>
    requires { pool.old.used ≤ reader.old.at }
    ensures same { (reader.new.message ≡ reader.old.message) × (pool.new.numbers.ghost_name ≡ pool.old.numbers.ghost_name) }
    ensures taken { FormTaken 2 reader.old reader.new pool.old pool.new result }
{
    let [input, output] = row(reader, [ANY, ANY])?;
    let work = Work::ColorMatrix(input, matrix(reader, pool)?);
    Ok(Step { work, output })
}

pub fn component_transfer(reader: &mut Reader, pool: &mut Pool) -> Result<Step, Wrong>
    requires { pool.old.used ≤ reader.old.at }
    ensures same { (reader.new.message ≡ reader.old.message) × (pool.new.numbers.ghost_name ≡ pool.old.numbers.ghost_name) }
    ensures taken { FormTaken 3 reader.old reader.new pool.old pool.new result }
{
    let [input, output] = row(reader, [ANY, ANY])?;
    let red = function(reader, pool)?;
    let green = function(reader, pool)?;
    let blue = function(reader, pool)?;
    let alpha = function(reader, pool)?;
    let work = Work::ComponentTransfer(input, red, green, blue, alpha);
    Ok(Step { work, output })
}

pub fn convolve_matrix(reader: &mut Reader, pool: &mut Pool) -> Result<Step, Wrong>
    requires { pool.old.used ≤ reader.old.at }
    ensures same { (reader.new.message ≡ reader.old.message) × (pool.new.numbers.ghost_name ≡ pool.old.numbers.ghost_name) }
    ensures taken { FormTaken 5 reader.old reader.new pool.old pool.new result }
{
    let [input, output, columns, rows, target_x, target_y] = row(reader, [ANY; 6])?;
    let numbers = numbers(reader, pool)?;
    let [divisor, bias, edge_mode, preserve_alpha] = row(reader, [ANY, ANY, 2, 1])?;
    let matrix = ConvolveMatrix {
        columns,
        rows,
        target_x,
        target_y,
        matrix: numbers,
        divisor: float_of(divisor),
        bias: float_of(bias),
        edge_mode: edge_by(edge_mode),
        preserve_alpha: preserve_alpha == 1,
    };
    Ok(Step {
        work: Work::ConvolveMatrix(input, matrix),
        output,
    })
}
