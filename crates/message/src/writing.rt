// Writing a recipe as a message: its ranges are tested, its bytes counted, and then written.
ghost use Rattle.std.specs.Prelude.{◌≡◌, ◌≤◌, length};
ghost use Rattle.sheet.specs.Contract.{lent};
ghost use Rattle.number.specs.Number.{Put};
ghost use Rattle.recipe.specs.Tests.{step_limit};
ghost use Rattle.message.specs.Answers.{message_of, write_answer, WrittenExactly};

use crate::MessageError;
use crate::steps::write_step;
use crate::tests::test_ranges;
use crate::writer::Writer;
use recipe::{Recipe, STEP_LIMIT};

// Stores the bytes of the message that lie inside `out`, and gives how many there are.
fn message_into(out: &mut [u8], recipe: Recipe, pool: &[f32]) -> usize
    requires { recipe.count ≤ step_limit }
    ensures { Put out.old 0 (message_of recipe pool.now) out.new result }
{
    let mut writer = Writer::new(out);
    writer.number(recipe.count as u32);
    for &step in &recipe.steps[..recipe.count] {
        write_step(&mut writer, step, pool);
    }
    writer.at
}

// How many bytes the message has.
fn length_of(recipe: Recipe, pool: &[f32]) -> usize
    requires { recipe.count ≤ step_limit }
    ensures { result ≡ length (message_of recipe pool.now) }
{
    let mut nothing = [0u8; 0];
    message_into(&mut nothing, recipe, pool)
}

// 6 over 16 steps, then 3, then 11 where `room` is too little.
fn test(recipe: Recipe, pool: &[f32], room: usize) -> Result<(), MessageError>
    ensures { result ≡ write_answer recipe pool.now room }
{
    if STEP_LIMIT < recipe.count {
        return Err(MessageError::Steps);
    }
    test_ranges(recipe, pool.len())?;
    if room < length_of(recipe, pool) {
        return Err(MessageError::Room);
    }
    Ok(())
}

// Writes the message of a recipe, whose ranges lie in the pool, to the start of `out`, and gives how many bytes it has.
// A refusal changes nothing.
pub fn write(recipe: Recipe, pool: &[f32], out: &mut [u8]) -> Result<usize, MessageError>
    ensures { WrittenExactly recipe pool.now (lent out.old out.new) result }
{
    test(recipe, pool, out.len())?;
    Ok(message_into(out, recipe, pool))
}
