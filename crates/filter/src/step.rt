// What a step does: its work, read from the picked slots, is written to its output slot.
ghost use Rattle.std.specs.Prelude.{◌≡◌, [], ◌∷◌, ℕ, ◌*◌, ◌≤◌, ◌<◌, length};
ghost use Rattle.sheet.specs.Answer.{Done};
ghost use Rattle.sheet.specs.Size.{sheets_answer};
ghost use Rattle.sheet.specs.Tabulate.{zeros};
ghost use Rattle.morphology.specs.Morphology.{radii_answer, morphed};
ghost use Rattle.composite.specs.Composite.{factors_answer, composed};
ghost use Rattle.composite.specs.Arithmetic.{factors};
ghost use Rattle.color_matrix.specs.ColorMatrix.{matrix_answer, recoloured};
ghost use Rattle.component_transfer.specs.ComponentTransfer.{channels_answer, transfer, transferred};
ghost use Rattle.convolve_matrix.specs.ConvolveMatrix.{kernel_answer, convolved};
ghost use Rattle.displacement_map.specs.DisplacementMap.{scales_answer, displaced};
ghost use Rattle.turbulence.specs.Turbulence.{turbulence_answer, drawn};
ghost use Rattle.lighting.specs.Lighting.{diffuse_answer, specular_answer, lit, diffuse, specular};
ghost use Rattle.recipe.specs.Tests.{work_answer, step_of, step_limit};
ghost use Rattle.filter.specs.Slots.{slots, slot_of, made, act, acts};
ghost use Rattle.recipe.specs.Contents.{inputs_of};
ghost use Rattle.filter.specs.Inner.Engine.{slots_in, Fits, IsInput, MadeOf, Legal};

use color_matrix::ColorMatrix;
use component_transfer::{Channel, TransferFunction};
use convolve_matrix::ConvolveMatrix;
use displacement_map::ColorChannel;
use lighting::{Color, LightSource};
use morphology::MorphologyOperator;
use recipe::{Inputs, Recipe, Step, Work};
use sheet::Size;
use turbulence::Turbulence;

// The sheets in the slots 0 to 3, lent for reading.
#[derive(Clone, Copy)]
struct Sheets<'a> {
    zero: &'a [u8],
    one: &'a [u8],
    two: &'a [u8],
    three: &'a [u8],
}

impl<'a> Sheets<'a> {
    // The sheet in a slot; a slot outside 0..=3 has no bytes.
    fn of(self, slot: u32) -> &'a [u8]
        ensures { result.now ≡ slot_of (slots_in self.entry) slot }
    {
        match slot {
            0 => self.zero,
            1 => self.one,
            2 => self.two,
            3 => self.three,
            _ => &[],
        }
    }
}

// Each of the functions `.._into` is called where its filter's tests have passed, and drops the answer.
fn morphology_into(
    operator: MorphologyOperator,
    rx: f32,
    ry: f32,
    size: Size,
    src: &[u8],
    out: &mut [u8],
    scratch: &mut [u8],
)
    requires scratch_value { sheets_answer size.width size.height (length src.now ∷ length out.old ∷ length scratch.old ∷ []) ≡ Done }
    requires ry_value { radii_answer rx ry ≡ Done }
    ensures { out.new ≡ morphed operator rx ry size.width size.height src.now }
{
    sheet::copy(src, out);
    let _ = morphology::apply(operator, rx, ry, size.width, size.height, out, scratch);
}

fn arithmetic_into(
    k1: f32,
    k2: f32,
    k3: f32,
    k4: f32,
    size: Size,
    src1: &[u8],
    src2: &[u8],
    out: &mut [u8],
)
    requires out_value { sheets_answer size.width size.height (length src1.now ∷ length src2.now ∷ length out.old ∷ []) ≡ Done }
    requires k4_value { factors_answer k1 k2 k3 k4 ≡ Done }
    ensures { out.new ≡ composed (factors k1 k2 k3 k4) src1.now src2.now }
{
    let _ = composite::arithmetic(k1, k2, k3, k4, size.width, size.height, src1, src2, out);
}

fn matrix_into(matrix: ColorMatrix, pool: &[f32], size: Size, src: &[u8], out: &mut [u8])
    requires out_value { sheets_answer size.width size.height (length src.now ∷ length out.old ∷ []) ≡ Done }
    requires pool_value { matrix_answer matrix pool.now ≡ Done }
    ensures { out.new ≡ recoloured matrix pool.now src.now }
{
    sheet::copy(src, out);
    let _ = color_matrix::apply(matrix, pool, size.width, size.height, out);
}

fn transfer_into(
    r: TransferFunction,
    g: TransferFunction,
    b: TransferFunction,
    a: TransferFunction,
    pool: &[f32],
    size: Size,
    src: &[u8],
    out: &mut [u8],
)
    requires out_value { sheets_answer size.width size.height (length src.now ∷ length out.old ∷ []) ≡ Done }
    requires pool_value { channels_answer r g b a pool.now ≡ Done }
    ensures { out.new ≡ transferred (transfer r pool.now) (transfer g pool.now) (transfer b pool.now) (transfer a pool.now) src.now }
{
    sheet::copy(src, out);
    let _ = component_transfer::apply(
        Channel { function: r, pool },
        Channel { function: g, pool },
        Channel { function: b, pool },
        Channel { function: a, pool },
        size.width,
        size.height,
        out,
    );
}

fn convolve_into(
    matrix: ConvolveMatrix,
    pool: &[f32],
    size: Size,
    src: &[u8],
    out: &mut [u8],
    scratch: &mut [u8],
)
    requires scratch_value { sheets_answer size.width size.height (length src.now ∷ length out.old ∷ length scratch.old ∷ []) ≡ Done }
    requires pool_value { kernel_answer matrix pool.now ≡ Done }
    ensures { out.new ≡ convolved matrix pool.now size.width size.height src.now }
{
    sheet::copy(src, out);
    let _ = convolve_matrix::apply(matrix, pool, size.width, size.height, out, scratch);
}

fn displacement_into(
    x_channel: ColorChannel,
    y_channel: ColorChannel,
    sx: f32,
    sy: f32,
    scale: f32,
    size: Size,
    src: &[u8],
    map: &[u8],
    out: &mut [u8],
)
    requires out_value { sheets_answer size.width size.height (length src.now ∷ length map.now ∷ length out.old ∷ []) ≡ Done }
    requires scale_value { scales_answer sx sy scale ≡ Done }
    ensures { out.new ≡ displaced x_channel y_channel sx sy scale size.width size.height src.now map.now }
{
    let _ = displacement_map::apply(
        x_channel,
        y_channel,
        sx,
        sy,
        scale,
        size.width,
        size.height,
        src,
        map,
        out,
    );
}

fn turbulence_into(t: Turbulence, size: Size, out: &mut [u8])
    requires out_value { sheets_answer size.width size.height (length out.old ∷ []) ≡ Done }
    requires t_value { turbulence_answer t ≡ Done }
    ensures { out.new ≡ drawn t size.width size.height }
{
    let _ = turbulence::apply(t, size.width, size.height, out);
}

fn diffuse_into(
    light: LightSource,
    scale: f32,
    constant: f32,
    color: Color,
    size: Size,
    src: &[u8],
    out: &mut [u8],
)
    requires out_value { sheets_answer size.width size.height (length src.now ∷ length out.old ∷ []) ≡ Done }
    requires constant_value { diffuse_answer light scale constant ≡ Done }
    ensures { out.new ≡ lit (diffuse light scale constant color) size.width size.height src.now }
{
    let _ = lighting::diffuse_lighting(
        light,
        scale,
        constant,
        color,
        size.width,
        size.height,
        src,
        out,
    );
}

fn specular_into(
    light: LightSource,
    scale: f32,
    constant: f32,
    exponent: f32,
    color: Color,
    size: Size,
    src: &[u8],
    out: &mut [u8],
)
    requires out_value { sheets_answer size.width size.height (length src.now ∷ length out.old ∷ []) ≡ Done }
    requires exponent_value { specular_answer light scale constant exponent ≡ Done }
    ensures { out.new ≡ lit (specular light scale constant color) size.width size.height src.now }
{
    let _ = lighting::specular_lighting(
        light,
        scale,
        constant,
        exponent,
        color,
        size.width,
        size.height,
        src,
        out,
    );
}

// Writes to `out` what the work makes of the sheets that it reads: of the first, and of the second where there are two.
fn work_on(
    work: Work,
    pool: &[f32],
    size: Size,
    src1: &[u8],
    src2: &[u8],
    out: &mut [u8],
    scratch: &mut [u8],
)
    requires scratch_value { sheets_answer size.width size.height (length src1.now ∷ length src2.now ∷ length out.old ∷ length scratch.old ∷ []) ≡ Done }
    requires pool_value { work_answer work pool.now ≡ Done }
    ensures { MadeOf work pool.now size.width size.height src1.now src2.now out.new }
{
    match work {
        Work::Morphology(_, operator, rx, ry) => {
            morphology_into(operator, rx, ry, size, src1, out, scratch)
        }
        Work::Arithmetic(_, _, k1, k2, k3, k4) => {
            arithmetic_into(k1, k2, k3, k4, size, src1, src2, out)
        }
        Work::ColorMatrix(_, matrix) => matrix_into(matrix, pool, size, src1, out),
        Work::ComponentTransfer(_, red, green, blue, alpha) => {
            transfer_into(red, green, blue, alpha, pool, size, src1, out)
        }
        Work::ConvolveMatrix(_, matrix) => convolve_into(matrix, pool, size, src1, out, scratch),
        Work::DisplacementMap(_, _, x_channel, y_channel, sx, sy, scale) => {
            displacement_into(x_channel, y_channel, sx, sy, scale, size, src1, src2, out)
        }
        Work::Turbulence(t) => turbulence_into(t, size, out),
        Work::DiffuseLighting(_, light, scale, constant, color) => {
            diffuse_into(light, scale, constant, color, size, src1, out)
        }
        Work::SpecularLighting(_, light, scale, constant, exponent, color) => {
            specular_into(light, scale, constant, exponent, color, size, src1, out)
        }
    }
}

// Writes to `out` what the work makes of the sheets in the slots.
fn work_into(
    work: Work,
    pool: &[f32],
    size: Size,
    sheets: Sheets,
    out: &mut [u8],
    scratch: &mut [u8],
)
    requires fits { Fits size.width size.height (slots_in sheets) scratch.old }
    requires out_len { length out.old ≡ 4 * size.width * size.height }
    requires pool_value { work_answer work pool.now ≡ Done }
    requires by_index { (s : ℕ) → IsInput (inputs_of work) s → s ≤ 3 }
    ensures { out.new ≡ made work pool.now size.width size.height (slot_of (slots_in sheets.entry)) }
{
    match work.inputs() {
        Inputs::None => work_on(work, pool, size, sheets.zero, sheets.zero, out, scratch),
        Inputs::One(s) => {
            let src = sheets.of(s);
            work_on(work, pool, size, src, src, out, scratch)
        }
        Inputs::Two(s, t) => { work_on(work, pool, size, sheets.of(s), sheets.of(t), out, scratch) }
    }
}

// In the output's place the source is lent again: no input is the output.
//
// The slots are parameters of their own: as fields behind one reference, read and written in one call, they have no proof.
fn do_step(
    step: Step,
    pool: &[f32],
    size: Size,
    s0: &[u8],
    s1: &mut [u8],
    s2: &mut [u8],
    s3: &mut [u8],
    scratch: &mut [u8],
)
    requires fits { Fits size.width size.height (slots s0.now s1.old s2.old s3.old) scratch.old }
    requires legal { Legal step pool.now }
    ensures { slots s0.now s1.new s2.new s3.new ≡ act pool.now size.width size.height step (slots s0.now s1.old s2.old s3.old) }
{
    let work = step.work;
    match step.output {
        1 => {
            let sheets = Sheets {
                zero: s0,
                one: s0,
                two: &s2[..],
                three: &s3[..],
            };
            work_into(work, pool, size, sheets, s1, scratch)
        }
        2 => {
            let sheets = Sheets {
                zero: s0,
                one: &s1[..],
                two: s0,
                three: &s3[..],
            };
            work_into(work, pool, size, sheets, s2, scratch)
        }
        _ => {
            let sheets = Sheets {
                zero: s0,
                one: &s1[..],
                two: &s2[..],
                three: s0,
            };
            work_into(work, pool, size, sheets, s3, scratch)
        }
    }
}

// Does the steps of a recipe that passed its tests, then clears the scratch.
pub fn do_steps(
    recipe: Recipe,
    pool: &[f32],
    size: Size,
    s0: &[u8],
    s1: &mut [u8],
    s2: &mut [u8],
    s3: &mut [u8],
    scratch: &mut [u8],
)
    requires fits { Fits size.width size.height (slots s0.now s1.old s2.old s3.old) scratch.old }
    requires count_le_step_limit { recipe.count ≤ step_limit }
    requires by_index { (i : ℕ) → i < recipe.count → Legal (step_of recipe i) pool.now }
    ensures s3_value { slots s0.now s1.new s2.new s3.new ≡ acts pool.now size.width size.height (step_of recipe) recipe.count (slots s0.now s1.old s2.old s3.old) }
    ensures scratch_value { scratch.new ≡ zeros (length scratch.old) }
{
    for i in 0..recipe.count {
        do_step(recipe.steps[i], pool, size, s0, s1, s2, s3, scratch);
    }
    sheet::clear(scratch);
}
