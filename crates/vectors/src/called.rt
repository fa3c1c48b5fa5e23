// What comes of a call with a case's parameters.
use sheet::Refusal;

// Why a case is not called.
#[derive(Clone, Copy, Debug, PartialEq, Eq)]
pub enum NotCalled {
    // No value of the enum says it, as a number that names no case: refused at the C boundary alone.
    Unnamed,
    // Not as many parameters or sheets as the call takes.
    Misread,
}

// The answer of the call, where the case is called.
pub type Called = Result<Result<(), Refusal>, NotCalled>;
