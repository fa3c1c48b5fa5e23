// Recipes as bytes: what the shore office sends, read and written (docs/MESSAGES.md).
#![tactic(auto)]

mod codes;
mod listed;
mod lists;
mod plain;
mod reading;
mod rows;
mod steps;
mod tests;
mod writer;
mod writing;

ghost use Rattle.std.specs.Prelude.{◌≡◌};
ghost use Rattle.message.specs.Answers;
ghost use Rattle.message.specs.declared.MessageError.TheVariants.{Malformed};

use morphology::MorphologyOperator;
use number::Wrong;
pub use reading::read;
use recipe::{Step, Work};
use std::error::Error;
use std::fmt;
pub use writing::write;

// Why a message is not read or not written. A malformed message comes with the offset of its first wrong number, a range
// outside the pool with the index of its step.
#[derive(Clone, Copy, Debug, PartialEq, Eq)]
pub enum MessageError {
    Shape(u8),
    Steps,
    Malformed(usize),
    Room,
}

impl MessageError {
    // The number of a refusal, as in docs/LAW.md.
    pub fn number(self) -> u8
        ensures { result ≡ Answers.number self }
    {
        match self {
            MessageError::Shape(_) => 3,
            MessageError::Steps => 6,
            MessageError::Malformed(_) => 10,
            MessageError::Room => 11,
        }
    }

    // The index of the step that a refusal is about; 0 where it is about none.
    pub fn step(self) -> u8
        ensures { result ≡ Answers.step_index self }
    {
        match self {
            MessageError::Shape(i) => i,
            _ => 0,
        }
    }

    // The offset of the wrong number that a refusal is about; 0 where it is about none.
    pub fn offset(self) -> u64
        ensures { result ≡ Answers.offset self }
    {
        match self {
            MessageError::Malformed(at) => at as u64,
            _ => 0,
        }
    }
}

impl fmt::Display for MessageError {
    fn fmt<W: fmt::Write>(&self, f: &mut fmt::Formatter<W>) -> fmt::Result {
        match self {
            MessageError::Shape(step) => write!(f, "step {step} has a range outside the pool"),
            MessageError::Steps => write!(f, "over 16 steps"),
            MessageError::Malformed(at) => write!(f, "wrong number at offset {at}"),
            MessageError::Room => write!(f, "no room"),
        }
    }
}

impl Error for MessageError {}

impl From<Wrong> for MessageError {
    ghost from_gives = { λ w e. e ≡ Malformed w.at };

    fn from(wrong: Wrong) -> MessageError {
        MessageError::Malformed(wrong.at)
    }
}

// What stands where no step is.
pub fn blank() -> Step
    ensures { result ≡ Answers.blank }
{
    Step {
        work: Work::Morphology(0, MorphologyOperator::Dilate, 0.0, 0.0),
        output: 0,
    }
}
