// Recipes: values that say which steps are run on which slots, and the tests of a run.
#![tactic(auto)]

mod contents;
mod tests;

ghost use Rattle.std.specs.Prelude.{◌≡◌};
ghost use Rattle.recipe.specs.Contents.{inputs_of};
ghost use Rattle.recipe.specs.Numbered.{kind_by};

use color_matrix::ColorMatrix;
use component_transfer::TransferFunction;
use convolve_matrix::ConvolveMatrix;
use displacement_map::ColorChannel;
use lighting::{Color, LightSource};
use morphology::MorphologyOperator;
use sheet::Refusal;
pub use tests::run_answer;
use turbulence::Turbulence;

// How the colours of a sheet are given.
#[derive(Clone, Copy, Debug, PartialEq, Eq)]
pub enum Kind {
    Straight,
    Premultiplied,
}

// A number that no kind has.
#[derive(Clone, Copy, Debug, PartialEq, Eq)]
pub struct UnknownKind(pub u32);

// The kind of a number: 0 is straight and 1 premultiplied.
impl TryFrom<u32> for Kind {
    type Error = UnknownKind;

    ghost try_from_gives = { λ number kind. kind ≡ kind_by number };

    fn try_from(number: u32) -> Result<Kind, UnknownKind> {
        match number {
            0 => Ok(Kind::Straight),
            1 => Ok(Kind::Premultiplied),
            _ => Err(UnknownKind(number)),
        }
    }
}

// What a step works out: the slots that it reads, whose numbers may be anything, then resvg's parameters.
#[derive(Clone, Copy)]
pub enum Work {
    Morphology(u32, MorphologyOperator, f32, f32),
    Arithmetic(u32, u32, f32, f32, f32, f32),
    ColorMatrix(u32, ColorMatrix),
    ComponentTransfer(u32, TransferFunction, TransferFunction, TransferFunction, TransferFunction),
    ConvolveMatrix(u32, ConvolveMatrix),
    DisplacementMap(u32, u32, ColorChannel, ColorChannel, f32, f32, f32),
    Turbulence(Turbulence),
    DiffuseLighting(u32, LightSource, f32, f32, Color),
    SpecularLighting(u32, LightSource, f32, f32, f32, Color),
}

// The slots that a step's work reads.
#[derive(Clone, Copy)]
pub enum Inputs {
    None,
    One(u32),
    Two(u32, u32),
}

impl Work {
    pub fn inputs(self) -> Inputs
        ensures { result ≡ inputs_of self }
    {
        match self {
            Work::Morphology(a, _, _, _) => Inputs::One(a),
            Work::Arithmetic(a, b, _, _, _, _) => Inputs::Two(a, b),
            Work::ColorMatrix(a, _) => Inputs::One(a),
            Work::ComponentTransfer(a, _, _, _, _) => Inputs::One(a),
            Work::ConvolveMatrix(a, _) => Inputs::One(a),
            Work::DisplacementMap(a, b, _, _, _, _, _) => Inputs::Two(a, b),
            Work::Turbulence(_) => Inputs::None,
            Work::DiffuseLighting(a, _, _, _, _) => Inputs::One(a),
            Work::SpecularLighting(a, _, _, _, _, _) => Inputs::One(a),
        }
    }
}

#[derive(Clone, Copy)]
pub struct Step {
    pub work: Work,
    pub output: u32,
}

impl Step {
    // The work, written to the slot `output`, whose number may be anything.
    pub fn new(work: Work, output: u32) -> Step
        ensures { (result.work ≡ work) × (result.output ≡ output) }
    {
        Step { work, output }
    }
}

// The largest number of steps.
pub const STEP_LIMIT: usize = 16;

// The first `count` steps are run; any count may be given.
#[derive(Clone, Copy)]
pub struct Recipe {
    pub steps: [Step; STEP_LIMIT],
    pub count: usize,
}

// Why a run is turned away, and the index of the step that the refusal is about: 0 where it is about none.
#[derive(Clone, Copy, Debug, PartialEq, Eq)]
pub struct Refused {
    pub refusal: Refusal,
    pub step: u8,
}

impl From<Refusal> for Refused {
    ghost from_gives = { λ refusal refused. refused ≡ (record { refusal = refusal; step = 0 }) };

    fn from(refusal: Refusal) -> Refused {
        Refused { refusal, step: 0 }
    }
}
