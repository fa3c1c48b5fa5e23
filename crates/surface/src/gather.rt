// A row's columns in three slices of any room: of each column the alphas weighted across the row, and those of the rows above and below.
ghost use Rattle.std.specs.Prelude.{ℕ, ◌≡◌, ◌+◌, ◌≤◌, ◌<◌, length, get_or, slice_set};
ghost use Rattle.surface.specs.Surface as Surface;
ghost use Rattle.surface.specs.Inner.Rows.{alpha_in, Holds, AreColumns, normal_in, normal_of};

use crate::strip::{Row, Strip};
use crate::{Normal, at_edge, factor, turned, weighted_in};

// Stores column x of a row's sheet in place `at`.
fn store(row: &Row, x: usize, at: usize, sums: &mut [u16], above: &mut [u8], below: &mut [u8])
    requires column { x < row.now.strip.width }
    requires room { (at < length sums.old) × (at < length above.old) × (at < length below.old) }
    ensures sums_are { sums.new ≡ slice_set sums.old at (Surface.weighted row.now.strip.height (alpha_in row.now x) row.now.y) }
    ensures small { Surface.weighted row.now.strip.height (alpha_in row.now x) row.now.y ≤ 1020 }
    ensures above_are { above.new ≡ slice_set above.old at (alpha_in row.now x (Surface.behind row.now.y)) }
    ensures below_are { below.new ≡ slice_set below.old at (alpha_in row.now x (Surface.ahead row.now.strip.height row.now.y)) }
{
    sums[at] = row.weighted(x);
    above[at] = row.alpha(x, row.behind());
    below[at] = row.alpha(x, row.ahead());
}

// The place before a row's: the column there, or beyond the sheet's edge the edge's own sum again and alphas of 0.
fn column_before(row: &Row, sums: &mut [u16], above: &mut [u8], below: &mut [u8])
    requires room { (row.now.strip.count + 2 ≤ length sums.old) × (row.now.strip.count + 2 ≤ length above.old) × (row.now.strip.count + 2 ≤ length below.old) }
    requires own { Holds row.now 1 (row.now.strip.count + 1) sums.old above.old below.old }
    ensures held { Holds row.now 0 (row.now.strip.count + 1) sums.new above.new below.new }
    ensures rest { (i : ℕ) → row.now.strip.count + 2 ≤ i → get_or sums.new i 0 ≡ get_or sums.old i 0 }
{
    if row.strip.left == 0 {
        sums[0] = sums[1];
        above[0] = 0;
        below[0] = 0;
    } else {
        store(row, row.strip.left - 1, 0, sums, above, below);
    }
}

// The place after a row's, likewise.
fn column_after(row: &Row, sums: &mut [u16], above: &mut [u8], below: &mut [u8])
    requires room { (row.now.strip.count + 2 ≤ length sums.old) × (row.now.strip.count + 2 ≤ length above.old) × (row.now.strip.count + 2 ≤ length below.old) }
    requires own { Holds row.now 0 (row.now.strip.count + 1) sums.old above.old below.old }
    ensures held { Holds row.now 0 (row.now.strip.count + 2) sums.new above.new below.new }
    ensures rest { (i : ℕ) → row.now.strip.count + 2 ≤ i → get_or sums.new i 0 ≡ get_or sums.old i 0 }
{
    let count = row.strip.count;
    let x = row.strip.left + count;
    if x < row.strip.width {
        store(row, x, count + 1, sums, above, below);
    } else {
        sums[count + 1] = sums[count];
        above[count + 1] = 0;
        below[count + 1] = 0;
    }
}

// Stores a row's columns from place 1 on, with the one before them and the one after them.
pub fn store_columns(row: &Row, sums: &mut [u16], above: &mut [u8], below: &mut [u8])
    requires { (row.now.strip.count + 2 ≤ length sums.old) × (row.now.strip.count + 2 ≤ length above.old) × (row.now.strip.count + 2 ≤ length below.old) }
    ensures columns { AreColumns row.now.strip.count sums.new above.new below.new }
    ensures normals { (i : ℕ) → i < row.now.strip.count → normal_in row.now.strip sums.new above.new below.new i row.now.y ≡ normal_of row.now i }
    ensures rest { (i : ℕ) → row.now.strip.count + 2 ≤ i → get_or sums.new i 0 ≡ get_or sums.old i 0 }
{
    for i in 0..row.strip.count {
        store(row, row.strip.left + i, i + 1, sums, above, below);
    }
    column_before(row, sums, above, below);
    column_after(row, sums, above, below);
}

// How the surface leans at the pixel in column i of a strip and in row y, by the columns round it, which stand in places i to i + 2.
pub fn normal_in(
    strip: &Strip,
    sums: &[u16],
    above: &[u8],
    below: &[u8],
    i: usize,
    y: usize,
) -> Normal
    requires within { (i < strip.now.count) × (y < strip.now.height) }
    requires room { (i + 2 < length sums.now) × (i + 2 < length above.now) × (i + 2 < length below.now) }
    requires small { (get_or sums.now i 0 ≤ 1020) × (get_or sums.now (i + 2) 0 ≤ 1020) }
    ensures { result ≡ normal_in strip.now sums.now above.now below.now i y }
{
    let side = at_edge(strip.column(i), strip.width as u16);
    let end = at_edge(y as u16, strip.height as u16);
    let lower = weighted_in(below, i);
    let higher = weighted_in(above, i);
    Normal {
        fx: factor(side, end),
        fy: factor(end, side),
        x: turned(sums[i + 2], sums[i]),
        y: turned(lower, higher),
    }
}
