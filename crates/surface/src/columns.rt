// Work space for a row's columns.
ghost use Rattle.std.specs.Prelude.{ℕ, ◌≡◌, ◌+◌, ◌≤◌, ◌<◌, get_or, replicate};

use crate::strip::Row;
use crate::{Normal, gather};

// Of columns side by side, the alphas weighted across a row, and those of the rows above and below.
#[derive(Drop)]
pub struct Columns<const N: usize> {
    pub sums: [u16; N],
    pub above: [u8; N],
    pub below: [u8; N],
    pub ghost small: { (i : ℕ) → get_or sums i 0 ≤ 1020 },
}

impl<const N: usize> Columns<N> {
    ghost use Rattle.surface.specs.Inner.Rows.{normal_in, normal_of};

    // No columns yet: 0 in each place.
    pub fn new() -> Self
        ensures { (result.sums ≡ replicate N 0) × (result.above ≡ replicate N 0) × (result.below ≡ replicate N 0) }
    {
        Columns {
            sums: [0; N],
            above: [0; N],
            below: [0; N],
        }
    }

    // Stores a row's columns from place 1 on, with the one before them and the one after them.
    pub fn fill(&mut self, row: &Row)
        requires { row.now.strip.count + 2 ≤ N }
        ensures { (i : ℕ) → i < row.now.strip.count → normal_in row.now.strip self.new.sums self.new.above self.new.below i row.now.y ≡ normal_of row.now i }
    {
        gather::store_columns(row, &mut self.sums, &mut self.above, &mut self.below);
    }

    // How the surface leans at the pixel in a row's column i.
    pub fn normal_in(&self, row: &Row, i: usize) -> Normal
        requires { (i < row.now.strip.count) × (i + 2 < N) }
        ensures { result ≡ normal_in row.now.strip self.now.sums self.now.above self.now.below i row.now.y }
    {
        gather::normal_in(&row.strip, &self.sums, &self.above, &self.below, i, row.y)
    }
}
