// Arithmetic composition: k1 to k4; the sheets are src1, src2 and dest.
use crate::called::Called;
use crate::cases::Case;

pub fn call(case: Case, src1: &[u8], src2: &[u8], dest: &mut [u8]) -> Called {
    case.parameters_are(4)?;
    Ok(composite::arithmetic(
        case.parameters.float(0),
        case.parameters.float(1),
        case.parameters.float(2),
        case.parameters.float(3),
        case.width,
        case.height,
        src1,
        src2,
        dest,
    ))
}
