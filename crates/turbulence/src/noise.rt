// The noise at a point, for the four channels together.
ghost use Rattle.std.specs.Prelude.{ℕ, ◌≡◌, ◌≤◌, ◌<◌, length, get_or};
ghost use Rattle.turbulence.specs.Noise as Noise;
ghost use Rattle.turbulence.specs.Inner.Rows.{doubled, row_at_point, RowAt};
ghost use Rattle.turbulence.specs.Inner.Columns.{column_at_point, point_with, ColumnAt};
ghost use Rattle.turbulence.specs.Inner.Sums.{CornersInside, WithOctave, SumsIn};

use crate::OCTAVE_LIMIT;
use crate::lattice::{cell, fraction, place_of};
use crate::tables::Tables;
use std::array;

// The octaves of a row, as many as there can be.
pub const OCTAVES: usize = OCTAVE_LIMIT as usize;

// A number for each channel.
pub type Channels = [f64; 4];

// What the pixels of a row share, at one octave: the cell, what lies beyond it, and the curve of that.
#[derive(Clone, Copy, Default)]
pub struct RowOctave {
    pub cell: u8,
    pub fraction: f64,
    pub curve: f64,
}

// What the pixels of a column share, at one octave: the selector's entries of the cell and of the next one, and what lies
// beyond the cell.
#[derive(Clone, Copy, Default)]
pub struct ColumnOctave {
    pub lower: u8,
    pub upper: u8,
    pub across: f64,
}

// What the four channels share at a point: the gradient numbers of the four corners round it, its place among them and
// the curves of that.
#[derive(Clone, Copy)]
pub struct Point {
    pub b00: usize,
    pub b10: usize,
    pub b01: usize,
    pub b11: usize,
    pub rx0: f64,
    pub rx1: f64,
    pub ry0: f64,
    pub ry1: f64,
    pub sx: f64,
    pub sy: f64,
}

fn s_curve(t: f64) -> f64
    ensures { result ≡ Noise.s_curve t }
{
    t * t * (3.0 - 2.0 * t)
}

fn lerp(t: f64, a: f64, b: f64) -> f64
    ensures { result ≡ Noise.lerp t a b }
{
    a + t * (b - a)
}

impl Point {
    // The point where a column and a row meet.
    fn between(tables: &Tables, column: ColumnOctave, row: RowOctave) -> Point
        ensures { (result ≡ point_with tables.now column row) × CornersInside result }
    {
        let by0 = usize::from(row.cell);
        let by1 = (by0 + 1) % 256;
        Point {
            b00: tables.corner(column.lower, by0),
            b10: tables.corner(column.upper, by0),
            b01: tables.corner(column.lower, by1),
            b11: tables.corner(column.upper, by1),
            rx0: column.across,
            rx1: column.across - 1.0,
            ry0: row.fraction,
            ry1: row.fraction - 1.0,
            sx: s_curve(column.across),
            sy: row.curve,
        }
    }

    // The noise of channel c.
    fn noise(&self, tables: &Tables, c: usize) -> f64
        requires { (c < 4) × CornersInside self.now }
        ensures { result ≡ Noise.noise tables.now.x tables.now.y c self.now }
    {
        let upper = lerp(
            self.sx,
            tables.along(c, self.b00, self.rx0, self.ry0),
            tables.along(c, self.b10, self.rx1, self.ry0),
        );
        let lower = lerp(
            self.sx,
            tables.along(c, self.b01, self.rx0, self.ry1),
            tables.along(c, self.b11, self.rx1, self.ry1),
        );
        lerp(self.sy, upper, lower)
    }
}

impl RowOctave {
    // The octave at y of a row.
    fn at(y: f64) -> RowOctave
        ensures { result ≡ row_at_point y }
    {
        let fraction = fraction(y + 4096.0);
        RowOctave {
            cell: cell(y + 4096.0) as u8,
            fraction,
            curve: s_curve(fraction),
        }
    }
}

// Each octave is stored, by what `at` gives: it lies at twice the position of the one before.
fn store_octaves<T: Copy, F: Fn(f64) -> T>(octaves: &mut [T], start: f64, at: F)
    requires { F.IsAlwaysCallable at }
    ensures { (k : ℕ) (z : T) → k < length octaves.new → F.post at (doubled k start) (get_or octaves.new k z) }
{
    let mut position = start;
    for octave in octaves.iter_mut() {
        *octave = at(position);
        position *= 2.0;
    }
}

// The row at y0.
pub fn row_at(y0: f64) -> [RowOctave; OCTAVES]
    ensures { RowAt y0 result }
{
    let mut row = [RowOctave::default(); OCTAVES];
    store_octaves(&mut row, y0, RowOctave::at);
    row
}

impl ColumnOctave {
    // The octave at x of a column.
    fn at(tables: &Tables, x: f64) -> ColumnOctave
        ensures { result ≡ column_at_point tables.now x }
    {
        let place = place_of(x + 4096.0);
        ColumnOctave {
            lower: tables.selector[place.cell],
            upper: tables.selector[(place.cell + 1) % 256],
            across: place.fraction,
        }
    }
}

// The column at x0 is stored.
pub fn store_column(tables: &Tables, x0: f64, column: &mut [ColumnOctave])
    ensures { ColumnAt tables.now x0 column.new }
{
    store_octaves(column, x0, |x| ColumnOctave::at(tables, x));
}

// The sums with one more octave, whose ratio has this inverse: fractal noise as it is, else its absolute value.
fn with_octave(
    fractal: bool,
    tables: &Tables,
    point: &Point,
    inverse: f64,
    sums: Channels,
) -> Channels
    requires { CornersInside point.now }
    ensures { WithOctave fractal tables.now point.now inverse sums result }
{
    let noises: Channels = array::from_fn(|c| point.noise(tables, c));
    if fractal {
        array::from_fn(|c| sums[c] + noises[c] * inverse)
    } else {
        array::from_fn(|c| sums[c] + floats::abs64(noises[c]) * inverse)
    }
}

// The four channels' sums over the octaves of a column and a row.
pub fn turbulence(
    fractal: bool,
    tables: &Tables,
    column: &[ColumnOctave],
    row: &[RowOctave; OCTAVES],
) -> Channels
    requires { length column.now ≤ 8 }
    ensures { SumsIn fractal tables.now column.now row.now result }
{
    let mut sums = [0.0f64; 4];
    // The octave's ratio is a power of two, and a product with its inverse is the quotient by it.
    let mut inverse: f64 = 1.0;
    for (k, octave) in column.iter().enumerate() {
        let point = Point::between(tables, *octave, row[k]);
        let more = with_octave(fractal, tables, &point, inverse, sums);
        sums = more;
        inverse *= 0.5;
    }
    sums
}
