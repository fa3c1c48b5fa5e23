// The sums of one row of a strip. A row of the sheet is widened there: its channels' numbers, with those of the places that
// the window reaches on either side, so that every column of the window is a shift of it.
ghost use Rattle.std.specs.Prelude.{◌≡◌, ℕ, ◌+◌, ◌-◌, ◌*◌, ◌≤◌, ◌<◌, length, get_or};
ghost use Rattle.std.specs.Float.{nan};
ghost use Rattle.floats.specs.Channel.{normalized};
ghost use Rattle.floats.specs.Operators.{◌⊕◌, ◌⊗◌};
ghost use Rattle.convolve_matrix.specs.ConvolveMatrix.{in_order};
ghost use Rattle.convolve_matrix.specs.Inner.Rows.{Widened, Added};
ghost use Rattle.convolve_matrix.specs.Inner.Strips.{row_sum_of, shifted_of};

use crate::edge::Side;
use crate::strip::{Strip, Work};

// The numbers become those of the bytes.
//
// An index, here and below, and no `zip`: what a slice holds after `iter_mut().zip(..)` can't be proved.
fn to_numbers(bytes: &[u8], numbers: &mut [f32])
    requires { length numbers.old ≡ length bytes.now }
    ensures { (i : ℕ) → i < length bytes.now → get_or numbers.new i nan ≡ normalized (get_or bytes.now i 0) }
{
    for (i, number) in numbers.iter_mut().enumerate() {
        *number = floats::normalized(bytes[i]);
    }
}

// Each sum grows by k times its number.
fn accumulate(k: f32, numbers: &[f32], sums: &mut [f32])
    requires { length sums.old ≡ length numbers.now }
    ensures { (i : ℕ) → i < length numbers.now → get_or sums.new i nan ≡ get_or sums.old i nan ⊕ get_or numbers.now i nan ⊗ k }
{
    for (i, sum) in sums.iter_mut().enumerate() {
        *sum += numbers[i] * k;
    }
}

// The places from lo up to hi, counted from place x of the line, get the numbers that are read for them.
fn widen_places(side: Side, line: &[u8], x: usize, lo: usize, hi: usize, row: &mut [f32])
    requires line { (length line.now ≡ 4 * side.places) × (x ≤ side.places) }
    requires places { (lo ≤ hi) × (4 * hi ≤ length row.old) }
    ensures { Widened side.mode side.target side.places line.now x lo hi row.old row.new }
{
    for e in lo..hi {
        let column = side.place(x + e);
        to_numbers(
            &line[4 * column..4 * column + 4],
            &mut row[4 * e..4 * e + 4],
        );
    }
}

// Likewise the places up to `end`: the line's own are read at once.
fn widen(side: Side, line: &[u8], x: usize, end: usize, row: &mut [f32])
    requires line { (length line.now ≡ 4 * side.places) × (x ≤ side.places) }
    requires places { (side.target ≤ end) × (4 * end ≤ length row.old) }
    ensures { Widened side.mode side.target side.places line.now x 0 end row.old row.new }
{
    let own = side.own(x, end);
    widen_places(side, line, x, 0, own.start, row);
    let column = x + own.start - side.target;
    let past = x + own.end - side.target;
    to_numbers(
        &line[4 * column..4 * past],
        &mut row[4 * own.start..4 * own.end],
    );
    widen_places(side, line, x, own.end, end, row);
}

impl Strip<'_> {
    // Each sum takes in row oy of the window, whose numbers are in `row`.
    fn add_columns(&self, oy: usize, row: &[f32], sums: &mut [f32])
        requires window { oy < self.now.whole.matrix.rows }
        requires row { 4 * (self.now.n + (self.now.whole.matrix.columns - 1)) ≤ length row.now }
        requires sums { 4 * self.now.n ≤ length sums.old }
        ensures { Added (λ i c. in_order self.now.whole.matrix.columns (shifted_of self.now row.now oy i c)) self.now.n sums.old sums.new }
    {
        let across = self.whole.across();
        let columns = self.whole.matrix.columns as usize;
        let base = (self.whole.matrix.rows as usize - oy - 1) * columns;
        for ox in 0..columns {
            let turned = columns - ox - 1;
            let k = self.whole.kernel[base + turned];
            let span = across.span(self.x + ox, self.n);
            accumulate(
                k,
                &row[4 * (span.start + ox)..4 * (span.end + ox)],
                &mut sums[4 * span.start..4 * span.end],
            );
        }
    }

    // The sums of row y take in row oy of the window.
    fn add_row(&self, y: usize, oy: usize, work: &mut Work)
        requires { (y < self.now.whole.height) × (oy < self.now.whole.matrix.rows) }
        ensures { Added (λ i c. row_sum_of self.now y i c oy) self.now.n work.old.sums work.new.sums }
    {
        let down = self.whole.down();
        if !down.is_read(y + oy) {
            return;
        }
        let line = self.whole.line(down.place(y + oy));
        let end = self.n + (self.whole.matrix.columns as usize - 1);
        let Work { sums, row } = work;
        widen(self.whole.across(), line, self.x, end, row);
        self.add_columns(oy, row, sums);
    }

    // The sums of row y take in their windows.
    pub fn add_rows(&self, y: usize, work: &mut Work)
        requires { y < self.now.whole.height }
        ensures { Added (λ i c. in_order self.now.whole.matrix.rows (row_sum_of self.now y i c)) self.now.n work.old.sums work.new.sums }
    {
        for oy in 0..self.whole.matrix.rows as usize {
            self.add_row(y, oy, work);
        }
    }
}
