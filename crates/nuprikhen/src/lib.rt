// The C functions. Each is total and thin: it calls the Rattle function and turns the answer into two numbers.
#![tactic(auto)]

mod leaves;
mod numbers;
mod nup_color_matrix;
mod nup_component_transfer;
mod nup_composite;
mod nup_convolve_matrix;
mod nup_displacement_map;
mod nup_lighting;
mod nup_morphology;
mod nup_recipes;
mod nup_turbulence;
mod nup_version;

ghost use Rattle.nuprikhen.specs.Called.{Told};

use sheet::Refusal;

// What a call answers: docs/LAW.md's number, 0 when it is done, and the index of the step.
#[derive(Clone, Copy)]
#[repr(C)]
pub struct nup_answer {
    pub number: u8,
    pub step: u8,
}

// The answer of a single call as C has it.
impl From<Result<(), Refusal>> for nup_answer {
    ghost from_gives = { λ answer told. Told answer told };

    fn from(answer: Result<(), Refusal>) -> nup_answer {
        let number = match answer {
            Ok(()) => 0,
            Err(refusal) => u8::from(refusal),
        };
        nup_answer { number, step: 0 }
    }
}
