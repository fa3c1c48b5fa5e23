// Displacement map: the channels for x and y, sx, sy and scale; the sheets are src, map and dest.
use crate::called::{Called, NotCalled};
use crate::cases::Case;
use displacement_map::ColorChannel;

pub fn call(case: Case, src: &[u8], map: &[u8], dest: &mut [u8]) -> Called {
    case.parameters_are(5)?;
    let x = ColorChannel::try_from(case.parameters.word(0)).map_err(|_| NotCalled::Unnamed)?;
    let y = ColorChannel::try_from(case.parameters.word(1)).map_err(|_| NotCalled::Unnamed)?;
    Ok(displacement_map::apply(
        x,
        y,
        case.parameters.float(2),
        case.parameters.float(3),
        case.parameters.float(4),
        case.width,
        case.height,
        src,
        map,
        dest,
    ))
}
