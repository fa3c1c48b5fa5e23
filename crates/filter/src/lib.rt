// Recipes of filters over four slots, as resvg's filter/mod.rs runs a filter's primitives.
#![tactic(auto)]

mod reach;
mod step;

ghost use Rattle.filter.specs.Call.{call, Ran};
ghost use Rattle.filter.specs.Reach.{ReachesExactly};
ghost use Rattle.sheet.specs.Contract.{lent, read_only};

pub use recipe::{Kind, Recipe, Refused, STEP_LIMIT, Step, Work};
use sheet::Size;

// Runs a recipe: `source` is slot 0, of the declared kind, and the last step's output slot holds the result.
//
// Each written slot holds its last step's output, the other slots are as they were, and `scratch` is all zero.
// A refusal changes no byte.
pub fn run(
    recipe: Recipe,
    kind: Kind,
    pool: &[f32],
    size: Size,
    source: &[u8],
    slot1: &mut [u8],
    slot2: &mut [u8],
    slot3: &mut [u8],
    scratch: &mut [u8],
) -> Result<(), Refused>
    ensures { Ran (call recipe kind (read_only pool.now) size (read_only source.now) (lent slot1.old slot1.new) (lent slot2.old slot2.new) (lent slot3.old slot3.new) (lent scratch.old scratch.new)) result }
{
    recipe::run_answer(
        recipe,
        kind,
        pool,
        size,
        source.len(),
        slot1.len(),
        slot2.len(),
        slot3.len(),
        scratch.len(),
    )?;
    step::do_steps(recipe, pool, size, source, slot1, slot2, slot3, scratch);
    Ok(())
}

// Whether any byte of the result reaches slot 0 at all. It is refused as a run is.
pub fn reaches(
    recipe: Recipe,
    kind: Kind,
    pool: &[f32],
    size: Size,
    source: &[u8],
    slot1: &[u8],
    slot2: &[u8],
    slot3: &[u8],
    scratch: &[u8],
) -> Result<bool, Refused>
    ensures { ReachesExactly (call recipe kind (read_only pool.now) size (read_only source.now) (read_only slot1.now) (read_only slot2.now) (read_only slot3.now) (read_only scratch.now)) result }
{
    let tested = recipe::run_answer(
        recipe,
        kind,
        pool,
        size,
        source.len(),
        slot1.len(),
        slot2.len(),
        slot3.len(),
        scratch.len(),
    );
    tested?;
    Ok(reach::result_reaches(recipe))
}
