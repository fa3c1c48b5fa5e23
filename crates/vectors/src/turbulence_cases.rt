// Turbulence: offset_x, offset_y, sx, sy and the two base frequencies in two words each, octaves, seed, stitching (only 0 is a
// case) and kind (1 is fractal noise); the sheet is dest.
use crate::called::Called;
use crate::cases::Case;

pub fn call(case: Case, dest: &mut [u8]) -> Called {
    case.parameters_are(16)?;
    case.choice(14, 0)?;
    let fractal_noise = case.choice(15, 1)? == 1;
    let turbulence = case.parameters.turbulence(0, fractal_noise);
    Ok(turbulence::apply(turbulence, case.width, case.height, dest))
}
