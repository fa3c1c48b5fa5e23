// Steps without lists: a row of numbers, read at once.
ghost use Rattle.std.specs.Prelude.{◌≡◌};
ghost use Rattle.message.specs.Inner.Reading.{PlainTaken};

use crate::codes::{byte_of, channel_by, light_by, operator_by};
use crate::rows::{ANY, row};
use lighting::Color;
use number::{Reader, Wrong, double_of, float_of, seed_of};
use recipe::{Step, Work};
use turbulence::Turbulence;

pub fn morphology(reader: &mut Reader) -> Result<Step, Wrong>
    ensures same { reader.new.message ≡ reader.old.message }
    ensures taken { PlainTaken 1 reader.old reader.new result }
{
    let [input, output, operator, rx, ry] = row(reader, [ANY, ANY, 1, ANY, ANY])?;
    let work = Work::Morphology(input, operator_by(operator), float_of(rx), float_of(ry));
    Ok(Step { work, output })
}

pub fn arithmetic(reader: &mut Reader) -> Result<Step, Wrong>
    ensures same { reader.new.message ≡ reader.old.message }
    ensures taken { PlainTaken 4 reader.old reader.new result }
{
    let [first, second, output, k1, k2, k3, k4] = row(reader, [ANY; 7])?;
    let work = Work::Arithmetic(
        first,
        second,
        float_of(k1),
        float_of(k2),
        float_of(k3),
        float_of(k4),
    );
    Ok(Step { work, output })
}

pub fn displacement_map(reader: &mut Reader) -> Result<Step, Wrong>
    ensures same { reader.new.message ≡ reader.old.message }
    ensures taken { PlainTaken 6 reader.old reader.new result }
{
    let [input, map, output, x, y, sx, sy, scale] = row(
        reader,
        [ANY, ANY, ANY, 3, 3, ANY, ANY, ANY],
    )?;
    let work = Work::DisplacementMap(
        input,
        map,
        channel_by(x),
        channel_by(y),
        float_of(sx),
        float_of(sy),
        float_of(scale),
    );
    Ok(Step { work, output })
}

pub fn turbulence(reader: &mut Reader) -> Result<Step, Wrong>
    ensures same { reader.new.message ≡ reader.old.message }
    ensures taken { PlainTaken 7 reader.old reader.new result }
{
    let w = row(
        reader,
        [
            ANY, ANY, ANY, ANY, ANY, ANY, ANY, ANY, ANY, ANY, ANY, ANY, ANY, ANY, ANY, 1,
        ],
    )?;
    let turbulence = Turbulence {
        offset_x: double_of(w[1], w[2]),
        offset_y: double_of(w[3], w[4]),
        sx: double_of(w[5], w[6]),
        sy: double_of(w[7], w[8]),
        base_frequency_x: double_of(w[9], w[10]),
        base_frequency_y: double_of(w[11], w[12]),
        num_octaves: w[13],
        seed: seed_of(w[14]),
        fractal_noise: w[15] == 1,
    };
    Ok(Step {
        work: Work::Turbulence(turbulence),
        output: w[0],
    })
}

pub fn diffuse_lighting(reader: &mut Reader) -> Result<Step, Wrong>
    ensures same { reader.new.message ≡ reader.old.message }
    ensures taken { PlainTaken 8 reader.old reader.new result }
{
    let [
        input,
        output,
        scale,
        constant,
        red,
        green,
        blue,
        kind,
        x,
        y,
        z,
    ] = row(
        reader,
        [ANY, ANY, ANY, ANY, 255, 255, 255, 1, ANY, ANY, ANY],
    )?;
    let color = Color {
        red: byte_of(red),
        green: byte_of(green),
        blue: byte_of(blue),
    };
    let light = light_by(kind, float_of(x), float_of(y), float_of(z));
    let work = Work::DiffuseLighting(input, light, float_of(scale), float_of(constant), color);
    Ok(Step { work, output })
}

pub fn specular_lighting(reader: &mut Reader) -> Result<Step, Wrong>
    ensures same { reader.new.message ≡ reader.old.message }
    ensures taken { PlainTaken 9 reader.old reader.new result }
{
    let [
        input,
        output,
        scale,
        constant,
        exponent,
        red,
        green,
        blue,
        kind,
        x,
        y,
        z,
    ] = row(
        reader,
        [ANY, ANY, ANY, ANY, ANY, 255, 255, 255, 1, ANY, ANY, ANY],
    )?;
    let color = Color {
        red: byte_of(red),
        green: byte_of(green),
        blue: byte_of(blue),
    };
    let light = light_by(kind, float_of(x), float_of(y), float_of(z));
    let work = Work::SpecularLighting(
        input,
        light,
        float_of(scale),
        float_of(constant),
        float_of(exponent),
        color,
    );
    Ok(Step { work, output })
}
