// Whether a slot reaches the source, worked out backwards from step to step.
ghost use Rattle.std.specs.Prelude.{◌≡◌, ◌≤◌, ◌<◌};
ghost use Rattle.recipe.specs.Tests.{step_of, step_limit};
ghost use Rattle.filter.specs.Reach as Reach;
ghost use Rattle.filter.specs.Inner.Engine.{each_once, origins_of, reaches_at};

use recipe::{Inputs, Recipe};

// A slot that is read twice is asked once.
fn each_once(inputs: Inputs) -> Inputs
    ensures { result ≡ each_once inputs }
{
    match inputs {
        Inputs::Two(a, b) if a == b => Inputs::One(a),
        _ => inputs,
    }
}

// The slots before step `i` from which `slot` is made: those that the step reads where it writes `slot`, else the slot itself.
fn origins(recipe: Recipe, i: usize, slot: u32) -> Inputs
    requires { i < step_limit }
    ensures { result ≡ origins_of (step_of recipe i) slot }
{
    let step = recipe.steps[i];
    if slot != step.output {
        return Inputs::One(slot);
    }
    each_once(step.work.inputs())
}

// Whether slot `slot` after the first `n` steps reaches the source.
fn slot_reaches(recipe: Recipe, n: usize, slot: u32) -> bool
    requires { n ≤ step_limit }
    ensures { result ≡ reaches_at (step_of recipe) n slot }
{
    if n == 0 {
        return slot == 0;
    }
    let before = n - 1;
    match origins(recipe, before, slot) {
        Inputs::None => false,
        Inputs::One(a) => slot_reaches(recipe, before, a),
        Inputs::Two(a, b) => slot_reaches(recipe, before, a) || slot_reaches(recipe, before, b),
    }
}

// Whether the last step's output slot reaches the source after all steps.
pub fn result_reaches(recipe: Recipe) -> bool
    requires count_nonzero { 0 < recipe.count }
    requires count_le_step_limit { recipe.count ≤ step_limit }
    ensures { result ≡ reaches_at (step_of recipe) recipe.count (Reach.result recipe) }
{
    let last = recipe.steps[recipe.count - 1];
    slot_reaches(recipe, recipe.count, last.output)
}
