// docs/LAW.md's boundary cases of the side limit, by every primitive and by a recipe: the numbers of their answers.
#![tactic(auto)]

ghost use Rattle.std.specs.Prelude.{◌≤◌};

use color_matrix::ColorMatrix;
use component_transfer::{Channel, TransferFunction};
use convolve_matrix::{ConvolveMatrix, EdgeMode};
use displacement_map::ColorChannel;
use filter::{Kind, Recipe, STEP_LIMIT, Step, Work};
use lighting::{Color, LightSource};
use morphology::MorphologyOperator;
use pool::Numbers;
use sheet::{Refusal, Size};
use std::io;
use turbulence::Turbulence;

fn main(rt: HostRuntime) -> io::Result<()> {
    show::<16384>(&rt, 4096, 1)?;
    show::<16388>(&rt, 4097, 1)?;
    show::<16384>(&rt, 1, 4096)?;
    show::<16388>(&rt, 1, 4097)
}

// Prints what every call answers on sheets of N bytes.
fn show<const N: usize>(rt: &impl Print, width: usize, height: usize) -> io::Result<()>
    requires { N ≤ 16388 }
{
    let size = Size { width, height };
    let mut source = [5u8; N];
    let mut slot1 = [6u8; N];
    let mut slot2 = [7u8; N];
    let mut slot3 = [8u8; N];
    let mut scratch = [9u8; N];
    print!(rt; "{width} x {height}:")?;
    spread(rt, size, &mut source, &mut scratch)?;
    recoloured(rt, size, &mut source)?;
    into_another(rt, size, &source, &slot1, &mut slot2)?;
    lit(rt, size, &source, &mut slot2)?;
    let run = filter::run(
        dilation(),
        Kind::Premultiplied,
        &[],
        size,
        &source,
        &mut slot1,
        &mut slot2,
        &mut slot3,
        &mut scratch,
    );
    say(rt, ", a recipe", run.map_err(|refused| refused.refusal))?;
    println!(rt;)
}

// Prints a call's name and the number of its answer.
fn say(rt: &impl Print, name: &str, answer: Result<(), Refusal>) -> io::Result<()> {
    print!(rt; "{name} {}", answer.err().map_or(0, u8::from))
}

fn spread(rt: &impl Print, size: Size, src: &mut [u8], scratch: &mut [u8]) -> io::Result<()> {
    let w = size.width;
    let h = size.height;
    let dilated = morphology::apply(MorphologyOperator::Dilate, 1.0, 1.0, w, h, src, scratch);
    say(rt, " morphology", dilated)?;
    let convolved = convolve_matrix::apply(halves(), &[0.5, 0.5], w, h, src, scratch);
    say(rt, ", convolve_matrix", convolved)
}

// A kernel of two columns.
fn halves() -> ConvolveMatrix {
    ConvolveMatrix {
        columns: 2,
        rows: 1,
        target_x: 1,
        target_y: 0,
        matrix: Numbers { start: 0, count: 2 },
        divisor: 1.0,
        bias: 0.0,
        edge_mode: EdgeMode::Wrap,
        preserve_alpha: false,
    }
}

fn recoloured(rt: &impl Print, size: Size, src: &mut [u8]) -> io::Result<()> {
    let w = size.width;
    let h = size.height;
    let saturated = color_matrix::apply(ColorMatrix::Saturate(0.5), &[], w, h, src);
    say(rt, ", color_matrix", saturated)?;
    let linear = Channel {
        function: TransferFunction::Linear(0.5, 0.25),
        pool: &[],
    };
    let transferred = component_transfer::apply(linear, linear, linear, linear, w, h, src);
    say(rt, ", component_transfer", transferred)
}

fn into_another(
    rt: &impl Print,
    size: Size,
    src: &[u8],
    other: &[u8],
    dest: &mut [u8],
) -> io::Result<()> {
    let w = size.width;
    let h = size.height;
    let composed = composite::arithmetic(0.0, 0.5, 0.5, 0.0, w, h, src, other, dest);
    say(rt, ", composite", composed)?;
    let red = ColorChannel::R;
    let green = ColorChannel::G;
    let moved = displacement_map::apply(red, green, 1.0, 1.0, 20.0, w, h, src, other, dest);
    say(rt, ", displacement_map", moved)?;
    let drawn = turbulence::apply(clouds(), w, h, dest);
    say(rt, ", turbulence", drawn)
}

fn clouds() -> Turbulence {
    Turbulence {
        offset_x: 0.0,
        offset_y: 0.0,
        sx: 1.0,
        sy: 1.0,
        base_frequency_x: 0.05,
        base_frequency_y: 0.05,
        num_octaves: 8,
        seed: 1,
        fractal_noise: true,
    }
}

fn lit(rt: &impl Print, size: Size, src: &[u8], dest: &mut [u8]) -> io::Result<()> {
    let w = size.width;
    let h = size.height;
    let light = LightSource::Point(2000.0, 2000.0, 90.0);
    let white = Color {
        red: 255,
        green: 255,
        blue: 255,
    };
    let diffuse = lighting::diffuse_lighting(light, 1.0, 1.0, white, w, h, src, dest);
    say(rt, ", diffuse lighting", diffuse)?;
    let specular = lighting::specular_lighting(light, 1.0, 1.0, 1.0, white, w, h, src, dest);
    say(rt, ", specular lighting", specular)
}

// One dilation, from the source to slot 1.
fn dilation() -> Recipe {
    let dilate = Work::Morphology(0, MorphologyOperator::Dilate, 1.0, 1.0);
    Recipe {
        steps: [Step::new(dilate, 1); STEP_LIMIT],
        count: 1,
    }
}
