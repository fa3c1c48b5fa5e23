// Steps as bytes.
ghost use Rattle.std.specs.Prelude.{◌≡◌, [], ◌∷◌, ◌+◌, ◌≤◌};
ghost use Rattle.pool.specs.Pool.{numbers_of};
ghost use Rattle.message.specs.Fields.{write_numbers, write_field};
ghost use Rattle.message.specs.Steps.{colour, function, matrix_in, function_in, parts, parts_of, words_of};
ghost use Rattle.message.specs.Inner.Writing.{Wrote, choice_most, step_most, lit_words};

use crate::codes::yes_code;
use crate::writer::Writer;
use color_matrix::ColorMatrix;
use component_transfer::TransferFunction;
use convolve_matrix::ConvolveMatrix;
use lighting::{Color, LightSource};
use number::{bits_of, bits_of_seed, high_half, low_half};
use pool::Numbers;
use recipe::{Step, Work};
use turbulence::Turbulence;

// A kind and the numbers of a range.
fn list(writer: &mut Writer, kind: u32, range: Numbers, pool: &[f32])
    requires { writer.old.at + choice_most ≤ 18446744073709551615 }
    ensures same { writer.new.out.ghost_name ≡ writer.old.out.ghost_name }
    ensures wrote { Wrote choice_most (kind ∷ write_numbers (numbers_of range pool.now)) writer.old writer.new }
{
    writer.number(kind);
    writer.numbers(range.part(pool));
}

fn matrix(writer: &mut Writer, matrix: ColorMatrix, pool: &[f32])
    requires { writer.old.at + choice_most ≤ 18446744073709551615 }
    ensures same { writer.new.out.ghost_name ≡ writer.old.out.ghost_name }
    ensures wrote { Wrote choice_most (write_field colour (matrix_in pool.now matrix)) writer.old writer.new }
{
    match matrix {
        ColorMatrix::Matrix(range) => list(writer, 0, range, pool),
        ColorMatrix::Saturate(value) => writer.row([1, bits_of(value)]),
        ColorMatrix::HueRotate(cosine, sine) => writer.row([2, bits_of(cosine), bits_of(sine)]),
        ColorMatrix::LuminanceToAlpha => writer.row([3]),
    }
}

fn function(writer: &mut Writer, transfer: TransferFunction, pool: &[f32])
    requires { writer.old.at + choice_most ≤ 18446744073709551615 }
    ensures same { writer.new.out.ghost_name ≡ writer.old.out.ghost_name }
    ensures wrote { Wrote choice_most (write_field function (function_in pool.now transfer)) writer.old writer.new }
{
    match transfer {
        TransferFunction::Identity => writer.row([0]),
        TransferFunction::Table(range) => list(writer, 1, range, pool),
        TransferFunction::Discrete(range) => list(writer, 2, range, pool),
        TransferFunction::Linear(slope, intercept) => {
            writer.row([3, bits_of(slope), bits_of(intercept)])
        }
    }
}

fn convolve_matrix(
    writer: &mut Writer,
    input: u32,
    matrix: ConvolveMatrix,
    output: u32,
    pool: &[f32],
)
    requires { writer.old.at + step_most ≤ 18446744073709551615 }
    ensures same { writer.new.out.ghost_name ≡ writer.old.out.ghost_name }
    ensures wrote { Wrote step_most (words_of (parts pool.now (Work.ConvolveMatrix input matrix) output)) writer.old writer.new }
{
    writer.row([
        5,
        input,
        output,
        matrix.columns,
        matrix.rows,
        matrix.target_x,
        matrix.target_y,
    ]);
    writer.numbers(matrix.matrix.part(pool));
    writer.row([
        bits_of(matrix.divisor),
        bits_of(matrix.bias),
        u32::from(matrix.edge_mode),
        yes_code(matrix.preserve_alpha),
    ]);
}

fn turbulence(writer: &mut Writer, t: Turbulence, output: u32)
    requires { writer.old.at + 85 ≤ 18446744073709551615 }
    ensures same { writer.new.out.ghost_name ≡ writer.old.out.ghost_name }
    ensures wrote { Wrote 85 (words_of (parts [] (Work.Turbulence t) output)) writer.old writer.new }
{
    writer.row([
        7,
        output,
        low_half(t.offset_x),
        high_half(t.offset_x),
        low_half(t.offset_y),
        high_half(t.offset_y),
        low_half(t.sx),
        high_half(t.sx),
        low_half(t.sy),
        high_half(t.sy),
        low_half(t.base_frequency_x),
        high_half(t.base_frequency_x),
        low_half(t.base_frequency_y),
        high_half(t.base_frequency_y),
        t.num_octaves,
        bits_of_seed(t.seed),
        yes_code(t.fractal_noise),
    ]);
}

// The colour of a light, and the light.
fn lit(writer: &mut Writer, color: Color, light: LightSource)
    requires { writer.old.at + 35 ≤ 18446744073709551615 }
    ensures same { writer.new.out.ghost_name ≡ writer.old.out.ghost_name }
    ensures wrote { Wrote 35 (lit_words color light) writer.old writer.new }
{
    writer.row([
        u32::from(color.red),
        u32::from(color.green),
        u32::from(color.blue),
    ]);
    match light {
        LightSource::Distant(x, y, z) => writer.row([0, bits_of(x), bits_of(y), bits_of(z)]),
        LightSource::Point(x, y, z) => writer.row([1, bits_of(x), bits_of(y), bits_of(z)]),
    }
}

// Writes a step.
pub fn write_step(writer: &mut Writer, step: Step, pool: &[f32])
    requires { writer.old.at + step_most ≤ 18446744073709551615 }
    ensures same { writer.new.out.ghost_name ≡ writer.old.out.ghost_name }
    ensures wrote { Wrote step_most (words_of (parts_of pool.now step)) writer.old writer.new }
{
    let output = step.output;
    match step.work {
        Work::Morphology(input, operator, rx, ry) => {
            let code = u32::from(operator);
            writer.row([1, input, output, code, bits_of(rx), bits_of(ry)])
        }
        Work::ColorMatrix(input, colour) => {
            writer.row([2, input, output]);
            matrix(writer, colour, pool)
        }
        Work::ComponentTransfer(input, red, green, blue, alpha) => {
            writer.row([3, input, output]);
            function(writer, red, pool);
            function(writer, green, pool);
            function(writer, blue, pool);
            function(writer, alpha, pool)
        }
        Work::Arithmetic(first, second, k1, k2, k3, k4) => {
            let [k1, k2, k3, k4] = [bits_of(k1), bits_of(k2), bits_of(k3), bits_of(k4)];
            writer.row([4, first, second, output, k1, k2, k3, k4])
        }
        Work::ConvolveMatrix(input, kernel) => convolve_matrix(writer, input, kernel, output, pool),
        Work::DisplacementMap(input, map, x, y, sx, sy, scale) => {
            let [x, y] = [u32::from(x), u32::from(y)];
            let [sx, sy, scale] = [bits_of(sx), bits_of(sy), bits_of(scale)];
            writer.row([6, input, map, output, x, y, sx, sy, scale])
        }
        Work::Turbulence(t) => turbulence(writer, t, output),
        Work::DiffuseLighting(input, light, scale, constant, color) => {
            writer.row([8, input, output, bits_of(scale), bits_of(constant)]);
            lit(writer, color, light)
        }
        Work::SpecularLighting(input, light, scale, constant, exponent, color) => {
            let [scale, constant] = [bits_of(scale), bits_of(constant)];
            writer.row([9, input, output, scale, constant, bits_of(exponent)]);
            lit(writer, color, light)
        }
    }
}
