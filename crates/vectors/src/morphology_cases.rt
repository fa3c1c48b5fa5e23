// Morphology: operator, rx and ry; the sheets are src and scratch.
use crate::called::{Called, NotCalled};
use crate::cases::Case;
use morphology::MorphologyOperator;

pub fn call(case: Case, src: &mut [u8], scratch: &mut [u8]) -> Called {
    case.parameters_are(3)?;
    let operator = MorphologyOperator::try_from(case.parameters.word(0)).map_err(
        |_| NotCalled::Unnamed,
    )?;
    let rx = case.parameters.float(1);
    let ry = case.parameters.float(2);
    Ok(morphology::apply(operator, rx, ry, case.width, case.height, src, scratch))
}
