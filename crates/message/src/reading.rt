// Reading a message: once to see that it is whole and fits, then once more into the pool.
ghost use Rattle.std.specs.Prelude.{◌≡◌, ◌≤◌, min};
ghost use Rattle.sheet.specs.Contract.{lent};
ghost use Rattle.message.specs.Message.{read_message};
ghost use Rattle.message.specs.Answers.{read_answer, ReadExactly};
ghost use Rattle.message.specs.Inner.Reading.{StepTaken, StepsTaken};

use crate::listed::{color_matrix, component_transfer, convolve_matrix};
use crate::lists::Pool;
use crate::plain::{
    arithmetic, diffuse_lighting, displacement_map, morphology, specular_lighting, turbulence,
};
use crate::{MessageError, blank};
use number::{Reader, Wrong};
use recipe::{Recipe, STEP_LIMIT, Step};

// Takes the step at the reader's place.
fn step(reader: &mut Reader, pool: &mut Pool) -> Result<Step, Wrong>
    requires { pool.old.used ≤ reader.old.at }
    ensures same { (reader.new.message ≡ reader.old.message) × (pool.new.numbers.ghost_name ≡ pool.old.numbers.ghost_name) }
    ensures taken { StepTaken reader.old reader.new pool.old pool.new result }
{
    let at = reader.at;
    // A code is matched where it is read: an enum of codes would be one match more.
    match reader.number()? {
        1 => morphology(reader),
        2 => color_matrix(reader, pool),
        3 => component_transfer(reader, pool),
        4 => arithmetic(reader),
        5 => convolve_matrix(reader, pool),
        6 => displacement_map(reader),
        7 => turbulence(reader),
        8 => diffuse_lighting(reader),
        9 => specular_lighting(reader),
        _ => Err(Wrong { at }),
    }
}

// Takes `count` steps, and gives the first sixteen of them.
fn steps(reader: &mut Reader, pool: &mut Pool, count: usize) -> Result<[Step; STEP_LIMIT], Wrong>
    requires { pool.old.used ≤ reader.old.at }
    ensures same { (reader.new.message ≡ reader.old.message) × (pool.new.numbers.ghost_name ≡ pool.old.numbers.ghost_name) }
    ensures taken { StepsTaken count reader.old reader.new pool.old pool.new result }
{
    let mut steps = [blank(); STEP_LIMIT];
    for i in 0..count {
        let step = step(reader, pool)?;
        if i < STEP_LIMIT {
            steps[i] = step;
        }
    }
    Ok(steps)
}

// Whether the whole of a message is taken: 10, then 6 over 16 steps, then 11 where `room` is too little.
fn test(message: &[u8], room: usize) -> Result<(), MessageError>
    ensures { result ≡ read_answer (read_message message.now) room }
{
    let mut reader = Reader::new(message);
    let mut nothing = [0.0f32; 0];
    let mut pool = Pool::new(&mut nothing);
    let count = reader.number()? as usize;
    steps(&mut reader, &mut pool, count)?;
    if reader.at != message.len() {
        return Err(MessageError::Malformed(reader.at));
    }
    if STEP_LIMIT < count {
        return Err(MessageError::Steps);
    }
    if room < pool.used {
        return Err(MessageError::Room);
    }
    Ok(())
}

// The numbers that a pool of n has room for: a range names none from 2^32 - 1 on.
fn room_of(n: usize) -> usize
    ensures { result ≡ min n 4294967295 }
{
    n.min(4294967295)
}

// Reads a message: its numbers stand in the pool end to end from its start, and the rest of the pool is as it was.
// A refusal changes nothing.
pub fn read(message: &[u8], pool: &mut [f32]) -> Result<Recipe, MessageError>
    ensures { ReadExactly message.now (lent pool.old pool.new) result }
{
    test(message, room_of(pool.len()))?;
    let mut reader = Reader::new(message);
    let mut pool = Pool::new(pool);
    let count = reader.number()? as usize;
    let steps = steps(&mut reader, &mut pool, count)?;
    Ok(Recipe { steps, count })
}
