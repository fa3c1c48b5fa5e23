// The tests of a run, in docs/LAW.md's order; none looks at a pixel.
ghost use Rattle.std.specs.Prelude.{◌≡◌, [], ◌∷◌, ◌<◌};
ghost use Rattle.sheet.specs.Size.{sheets_answer};
ghost use Rattle.recipe.specs.Tests.{step_limit, work_answer, step_answer, recipe_answer, run_answer};

use crate::contents::Contents;
use crate::{Kind, Recipe, Refused, STEP_LIMIT, Step, Work};
use component_transfer::Channel;
use sheet::{Refusal, Size};

// Tests 3, 4 and 5 of a step's parameters: the single call's own.
fn work_answer(work: Work, pool: &[f32]) -> Result<(), Refusal>
    ensures { result ≡ work_answer work pool.now }
{
    match work {
        Work::Morphology(_, _, rx, ry) => morphology::test(rx, ry),
        Work::Arithmetic(_, _, k1, k2, k3, k4) => composite::test(k1, k2, k3, k4),
        Work::ColorMatrix(_, matrix) => color_matrix::test(matrix, pool),
        Work::ComponentTransfer(_, r, g, b, a) => {
            let [r, g, b, a] = [r, g, b, a].map(|function| Channel { function, pool });
            component_transfer::test(r, g, b, a)
        }
        Work::ConvolveMatrix(_, matrix) => convolve_matrix::test(matrix, pool),
        Work::DisplacementMap(_, _, _, _, sx, sy, scale) => displacement_map::test(sx, sy, scale),
        Work::Turbulence(t) => turbulence::test(t),
        Work::DiffuseLighting(_, light, scale, constant, _) => {
            lighting::test_diffuse(light, scale, constant)
        }
        Work::SpecularLighting(_, light, scale, constant, exponent, _) => {
            lighting::test_specular(light, scale, constant, exponent)
        }
    }
}

// The tests of one step: 7, 8, then 3, 4 and 5.
fn step_answer(step: Step, pool: &[f32], contents: Contents) -> Result<(), Refusal>
    ensures { result ≡ step_answer step pool.now contents.slots }
{
    if !contents.slots_ok(step.work.inputs(), step.output) {
        return Err(Refusal::Slot);
    }
    if contents.made_by(step.work).is_none() {
        return Err(Refusal::Kind);
    }
    work_answer(step.work, pool)
}

// Test 6, then the steps in order.
fn recipe_answer(recipe: Recipe, kind: Kind, pool: &[f32]) -> Result<(), Refused>
    ensures { result ≡ recipe_answer recipe kind pool.now }
{
    if recipe.count == 0 {
        return Err(Refused::from(Refusal::Steps));
    }
    if STEP_LIMIT < recipe.count {
        return Err(Refused::from(Refusal::Steps));
    }
    let mut contents = Contents::at_first(kind);
    for i in 0..recipe.count {
        let step = recipe.steps[i];
        if let Err(refusal) = step_answer(step, pool, contents) {
            return Err(Refused {
                refusal,
                step: i as u8,
            });
        }
        let made = contents.made_by(step.work);
        contents.hold(step.output, made);
    }
    Ok(())
}

// What a run is answered, from the lengths of what is lent.
pub fn run_answer(
    recipe: Recipe,
    kind: Kind,
    pool: &[f32],
    size: Size,
    source: usize,
    slot1: usize,
    slot2: usize,
    slot3: usize,
    scratch: usize,
) -> Result<(), Refused>
    ensures { result ≡ run_answer recipe kind pool.now size.width size.height (source ∷ slot1 ∷ slot2 ∷ slot3 ∷ scratch ∷ []) }
{
    sheet::test(
        size.width,
        size.height,
        &[source, slot1, slot2, slot3, scratch],
    )?;
    recipe_answer(recipe, kind, pool)
}
