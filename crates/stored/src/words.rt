// The numbers in a list's bytes, the lowest byte first: words of 32 bits, and floats by their bits.
ghost use Rattle.std.specs.Prelude.{◌≡◌, ◌+◌, ◌*◌, ◌<◌, ◌≤◌, length, drop, slice_index};
ghost use Rattle.sheet.specs.Tabulate.{tabulate};
ghost use Rattle.stored.specs.Words as Numbers;

use std::num;

// The words of a list from a place on, which may be anywhere: a byte past the end of the list counts as 0.
#[derive(Clone, Copy, Debug)]
pub struct Words<'a> {
    pub list: &'a [u8],
    pub at: usize,
}

impl<'a> Words<'a> {
    // The bytes from the place on.
    fn rest(self) -> &'a [u8]
        ensures { result.now ≡ drop self.entry.at self.entry.list.now }
    {
        self.list.get(self.at..).unwrap_or(&[])
    }

    // Word i.
    #[tactic(auto, unfolding(crate::specs::Words::word))]
    pub fn word(self, i: usize) -> u32
        requires { i < 4096 }
        ensures { result ≡ Numbers.word self.entry.list.now self.entry.at i }
    {
        let rest = self.rest();
        let at = 4 * i;
        u32::from_le_bytes([
            byte(rest, at),
            byte(rest, at + 1),
            byte(rest, at + 2),
            byte(rest, at + 3),
        ])
    }

    // Word i, the bits of an `f32`.
    pub fn float(self, i: usize) -> f32
        requires { i < 4096 }
        ensures { result ≡ Numbers.float self.entry.list.now self.entry.at i }
    {
        num::f32_from_bits_with_nan(self.word(i))
    }

    // Words i and i + 1, the low and the high bits of an `f64`.
    pub fn double(self, i: usize) -> f64
        requires { i < 4095 }
        ensures { result ≡ Numbers.double self.entry.list.now self.entry.at i }
    {
        let low = u64::from(self.word(i));
        let high = u64::from(self.word(i + 1));
        num::f64_from_bits_with_nan(low + 4294967296 * high)
    }

    // Word i, the two's complement of an `i32`.
    pub fn signed(self, i: usize) -> i32
        requires { i < 4096 }
        ensures { result ≡ Numbers.signed (Numbers.word self.entry.list.now self.entry.at i) }
    {
        self.word(i).cast_signed()
    }

    // The words after the first `count`.
    pub fn skip(self, count: usize) -> Words<'a>
        requires { self.at + 4 * count < 18446744073709551616 }
        ensures { (result.list ≡ self.entry.list) × (result.at ≡ self.entry.at + 4 * count) }
    {
        Words {
            list: self.list,
            at: self.at + 4 * count,
        }
    }

    // Fills `numbers` with the words, the bits of an `f32` each.
    pub fn floats(self, numbers: &mut [f32])
        requires { length numbers.old ≤ 4096 }
        ensures { numbers.new ≡ tabulate (length numbers.old) (Numbers.float self.entry.list.now self.entry.at) }
    {
        for i in 0..numbers.len() {
            numbers[i] = self.float(i);
        }
    }
}

// Byte i, or 0 past the end.
fn byte(bytes: &[u8], i: usize) -> u8
    ensures { result ≡ slice_index bytes.now i }
{
    bytes.get(i).copied().unwrap_or(0)
}
