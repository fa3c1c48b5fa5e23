// Numbers of a message: groups of seven bits, lowest first, in the shortest form, below 2^32.
#![tactic(auto)]

mod groups;
pub mod reader;
mod values;

ghost use Rattle.std.specs.Prelude.{◌≡◌, ◌+◌, ◌≤◌};
ghost use Rattle.number.specs.Number.{number_at, number_bytes, Put};

pub use reader::Reader;
use std::error::Error;
use std::fmt;
pub use values::{bits_of, bits_of_seed, double_of, float_of, high_half, low_half, seed_of};

// No number begins at this place of a message.
#[derive(Clone, Copy, Debug, PartialEq, Eq)]
pub struct Wrong {
    pub at: usize,
}

impl fmt::Display for Wrong {
    fn fmt<W: fmt::Write>(&self, f: &mut fmt::Formatter<W>) -> fmt::Result {
        write!(f, "no number at offset {}", self.at)
    }
}

impl Error for Wrong {}

// The number at `at`, and the place after it.
pub fn read_number(message: &[u8], at: usize) -> Result<(u32, usize), Wrong>
    ensures { result ≡ number_at message.now at }
{
    groups::groups_at(message, at, 4)
}

// Stores those bytes of n, from `at` on, that lie inside `out`, and answers where they end: an empty slice measures them.
pub fn write_number(out: &mut [u8], at: usize, n: u32) -> usize
    requires { at + 5 ≤ 18446744073709551615 }
    ensures { Put out.old at (number_bytes n) out.new result }
{
    groups::put_groups(out, at, 4, n)
}
