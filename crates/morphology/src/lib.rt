// The morphology filter, as resvg's morphology.rs.
#![tactic(auto)]

mod operator;
mod spread;

ghost use Rattle.std.specs.Prelude.{◌≡◌, ◌<◌};
ghost use Rattle.sheet.specs.Contract.{lent, Filtered, Cleared};
ghost use Rattle.morphology.specs.Morphology.{radius, radii_answer, answer, morphed};

pub use operator::{MorphologyOperator, UnknownOperator};
use sheet::Refusal;

// The largest radius.
const RADIUS_LIMIT: f32 = 65536.0;

// Tests 4 and 5 of the radii.
pub fn test(rx: f32, ry: f32) -> Result<(), Refusal>
    ensures { result ≡ radii_answer rx ry }
{
    if !floats::is_finite(rx) {
        return Err(Refusal::NotFinite);
    }
    if !floats::is_finite(ry) {
        return Err(Refusal::NotFinite);
    }
    if !floats::within(0.0, rx, RADIUS_LIMIT) {
        return Err(Refusal::Range);
    }
    if !floats::within(0.0, ry, RADIUS_LIMIT) {
        return Err(Refusal::Range);
    }
    Ok(())
}

// A radius in whole pixels, at most the side less 1.
fn pixels(r: f32, side: usize) -> usize
    requires { 0 < side }
    ensures { (result ≡ radius r side) × (result < side) }
{
    let rounded = floats::round_to_i32(r).max(0);
    (rounded as usize).min(side - 1)
}

// Applies a morphology filter in place.
//
// `src` pixels should have a premultiplied alpha. `scratch` is as long as `src`, and all zero afterwards.
pub fn apply(
    operator: MorphologyOperator,
    rx: f32,
    ry: f32,
    width: usize,
    height: usize,
    src: &mut [u8],
    scratch: &mut [u8],
) -> Result<(), Refusal>
    ensures filtered { Filtered (answer rx ry width height src.old scratch.old) result (morphed operator rx ry width height src.old) (lent src.old src.new) }
    ensures cleared { Cleared 0 (answer rx ry width height src.old scratch.old) (lent scratch.old scratch.new) }
{
    sheet::test(width, height, &[src.len(), scratch.len()])?;
    test(rx, ry)?;
    spread::spread_sheet(
        operator,
        pixels(rx, width),
        pixels(ry, height),
        width,
        height,
        src,
        scratch,
    );
    Ok(())
}
