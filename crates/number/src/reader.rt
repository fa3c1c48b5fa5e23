// A message with a place in it.
ghost use Rattle.std.specs.Prelude.{◌≡◌, ◌≤◌};
ghost use Rattle.number.specs.Number.{Reads};

use crate::{Wrong, read_number};

// A reader holds the message and its place in it.
#[derive(Clone, Copy)]
pub struct Reader<'a> {
    pub message: &'a [u8],
    pub at: usize,
}

impl<'a> Reader<'a> {
    // A reader at the start of the message.
    pub fn new(message: &'a [u8]) -> Reader<'a>
        ensures { (result.message ≡ message.entry) × (result.at ≡ 0) }
    {
        Reader { message, at: 0 }
    }

    // Takes the number at the reader's place; where there is none, the reader stays.
    pub fn number(&mut self) -> Result<u32, Wrong>
        ensures same { self.new.message ≡ self.old.message }
        ensures fits { self.new.at ≤ 18446744073709551615 }
        ensures number { Reads self.old.message.now self.old.at result self.new.at }
    {
        let (n, end) = read_number(self.message, self.at)?;
        self.at = end;
        Ok(n)
    }
}
