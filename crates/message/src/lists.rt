// A count and so many numbers: matrices, tables and kernels, which stand in a pool.
ghost use Rattle.std.specs.Prelude.{◌≡◌, ◌+◌, ◌≤◌, ◌<◌, set};
ghost use Rattle.message.specs.Inner.Reading.{NumbersTaken};

use number::{Reader, Wrong, float_of};
use pool::Numbers;

// The numbers that are lent for lists, and how many of them were taken. That they are no more than a reader has passed is a
// fact of both, which neither type can keep: each function that takes both asks for it.
#[derive(Drop)]
pub struct Pool<'a> {
    pub numbers: &'a mut [f32],
    pub used: usize,
}

impl<'a> Pool<'a> {
    pub fn new(numbers: &'a mut [f32]) -> Pool<'a>
        ensures same { result.numbers.ghost_name ≡ numbers.entry.ghost_name }
        ensures all { (result.numbers.now ≡ numbers.old) × (result.used ≡ 0) }
    {
        Pool { numbers, used: 0 }
    }

    // Stores x after the others, if there is room.
    fn push(&mut self, x: f32)
        requires { self.old.used < 18446744073709551615 }
        ensures same { self.new.numbers.ghost_name ≡ self.old.numbers.ghost_name }
        ensures stored { self.new.numbers.now ≡ set self.old.numbers.now self.old.used x }
        ensures used { self.new.used ≡ self.old.used + 1 }
    {
        if self.used < self.numbers.len() {
            self.numbers[self.used] = x;
        }
        self.used += 1;
    }
}

// Takes a count and so many numbers, which stand in the pool from its used numbers on.
pub fn numbers(reader: &mut Reader, pool: &mut Pool) -> Result<Numbers, Wrong>
    requires { pool.old.used ≤ reader.old.at }
    ensures same { (reader.new.message ≡ reader.old.message) × (pool.new.numbers.ghost_name ≡ pool.old.numbers.ghost_name) }
    ensures taken { NumbersTaken reader.old reader.new pool.old pool.new result }
{
    // A range names no number from 2^32 - 1 on.
    let start = pool.used.min(4294967295) as u32;
    let count = reader.number()?;
    for _ in 0..count {
        let bits = reader.number()?;
        pool.push(float_of(bits));
    }
    Ok(Numbers { start, count })
}
