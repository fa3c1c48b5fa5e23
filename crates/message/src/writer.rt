// A slice that a message is written to: what lies past its end is counted, and not stored.
ghost use Rattle.std.specs.Prelude.{◌≡◌, [], ◌∷◌, ◌+◌, ◌*◌, ◌≤◌, ◌<◌, length};
ghost use Rattle.message.specs.Fields.{write_numbers};
ghost use Rattle.message.specs.Inner.Writing.{Wrote};

use number::{bits_of, write_number};

// A writer holds the slice and its place in it.
#[derive(Drop)]
pub struct Writer<'a> {
    pub out: &'a mut [u8],
    pub at: usize,
}

impl<'a> Writer<'a> {
    // A writer at the start of the slice.
    pub fn new(out: &'a mut [u8]) -> Writer<'a>
        ensures same { result.out.ghost_name ≡ out.entry.ghost_name }
        ensures all { (result.out.now ≡ out.old) × (result.at ≡ 0) }
    {
        Writer { out, at: 0 }
    }

    pub fn number(&mut self, n: u32)
        requires { self.old.at + 5 ≤ 18446744073709551615 }
        ensures same { self.new.out.ghost_name ≡ self.old.out.ghost_name }
        ensures wrote { Wrote 5 (n ∷ []) self.old self.new }
    {
        self.at = write_number(self.out, self.at, n);
    }

    pub fn row<const N: usize>(&mut self, words: [u32; N])
        requires { self.old.at + 5 * N ≤ 18446744073709551615 }
        ensures same { self.new.out.ghost_name ≡ self.old.out.ghost_name }
        ensures wrote { Wrote (5 * N) words.entry self.old self.new }
    {
        for word in words {
            self.number(word);
        }
    }

    // The count of the numbers, and the numbers.
    pub fn numbers(&mut self, numbers: &[f32])
        requires { (length numbers.now < 4294967296) × (self.old.at + 5 * length numbers.now + 5 ≤ 18446744073709551615) }
        ensures same { self.new.out.ghost_name ≡ self.old.out.ghost_name }
        ensures wrote { Wrote (5 * length numbers.now + 5) (write_numbers numbers.now) self.old self.new }
    {
        self.number(numbers.len() as u32);
        for &x in numbers {
            self.number(bits_of(x));
        }
    }
}
