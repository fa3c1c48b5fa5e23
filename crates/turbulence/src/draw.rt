// The pixels, one by one.
ghost use Rattle.std.specs.Prelude.{◌≡◌, ◌+◌, ◌*◌, ◌≤◌, ◌<◌, T, length};
ghost use Rattle.floats.specs.Inner.Steps.{up_to};
ghost use Rattle.sheet.specs.Size.{Sized, side_limit};
ghost use Rattle.sheet.specs.Tabulate.{tabulate};
ghost use Rattle.sheet.specs.Inner.Strips.{strip_limit, Worked};
ghost use Rattle.turbulence.specs.Turbulence.{point_on, scaled_sum, byte_of, drawn};
ghost use Rattle.turbulence.specs.Inner.Levels.{level_of, Parts};
ghost use Rattle.turbulence.specs.Inner.Columns.{ColumnsOf};
ghost use Rattle.turbulence.specs.Inner.Drawn.{bytes_by, PixelIn, RowDrawn};

use crate::noise::{ColumnOctave, OCTAVES, RowOctave};
use crate::tables::Tables;
use crate::{Turbulence, noise, tables};
use sheet::STRIP;
use sheet::pixel::Straight;

// Room for each octave of the most columns of a strip.
const COLUMNS: usize = STRIP * OCTAVES;

// The point of pixel n on an axis, in user space and times the frequency.
fn point_on(offset: f64, scale: f64, frequency: f64, n: usize) -> f64
    requires { n < side_limit }
    ensures { result ≡ point_on offset scale frequency n }
{
    (n as u32 as f64 + offset) / scale * frequency
}

// A sum as a number from 0 to 255.
fn scaled_sum(fractal: bool, n: f64) -> f64
    ensures { result ≡ scaled_sum fractal n }
{
    if fractal {
        (n * 255.0 + 255.0) / 2.0
    } else {
        n * 255.0
    }
}

// resvg's `(f32_bound(0.0, n as f32, 255.0) + 0.5) as u8`; a NaN gives 0.
fn level_of(value: f64) -> u8
    ensures { result ≡ level_of value }
{
    floats::to_byte(floats::bound(0.0, floats::to_f32(value), 255.0) + 0.5)
}

// A value's 65,536ths, to the nearest one, and 32,769 more.
fn parts_of(value: f64) -> u64
    requires { T (up_to 255 value) }
    ensures { Parts value result }
{
    let raised: f64 = value * 65536.0 + 4503599627370496.0;
    f64::to_bits(raised) - 0x4330_0000_0000_0000 + 32769
}

// A sum's byte. Rounding to an `f32` moves a value by less than a part, so that more than one part from a half the
// nearest whole number is known before.
fn byte_of(fractal: bool, n: f64) -> u8
    ensures { result ≡ byte_of fractal n }
{
    let value = scaled_sum(fractal, n);
    if value > 0.0 && value < 255.0 {
        let parts = parts_of(value);
        if 1 < parts % 65536 {
            return (parts / 65536) as u8;
        }
    }
    level_of(value)
}

// The columns of a strip of a sheet: as many as `count` from column `first` on.
#[derive(Clone, Copy)]
struct Strip {
    width: usize,
    first: usize,
    count: usize,
    ghost inside: { first + count ≤ width },
    ghost low: { width ≤ side_limit },
    ghost few: { count ≤ strip_limit },
}

// A turbulence that passed its tests, and the tables of its seed.
#[derive(Clone, Copy)]
struct Drawing<'a> {
    t: Turbulence,
    tables: &'a Tables,
    ghost few_octaves: { t.num_octaves ≤ 8 },
}

impl Drawing<'_> {
    // The pixel of a column and a row.
    fn pixel(&self, column: &[ColumnOctave], row: &[RowOctave; OCTAVES]) -> Straight
        requires { length column.now ≡ self.now.t.num_octaves }
        ensures { PixelIn self.now.t self.now.tables.now column.now row.now result.number }
    {
        let fractal = self.t.fractal_noise;
        let [r, g, b, a] = noise::turbulence(fractal, self.tables, column, row);
        Straight::of(
            byte_of(fractal, r),
            byte_of(fractal, g),
            byte_of(fractal, b),
            byte_of(fractal, a),
        )
    }

    // Row y of the strip is drawn.
    fn draw_row(&self, columns: &[ColumnOctave; COLUMNS], strip: Strip, y: usize, dest: &mut [u8])
        requires low { y < side_limit }
        requires room { 4 * (y * strip.width + strip.first) + 4 * strip.count ≤ length dest.old }
        requires columns_of { ColumnsOf self.now.t self.now.tables.now strip.first strip.count columns.now }
        ensures { RowDrawn self.now.t self.now.tables.now strip.width y strip.first strip.count dest.old dest.new }
    {
        let t = &self.t;
        let octaves = t.num_octaves as usize;
        let row = noise::row_at(point_on(t.offset_y, t.sy, t.base_frequency_y, y));
        let start = 4 * (y * strip.width + strip.first);
        for i in 0..strip.count {
            let column = &columns[i * octaves..i * octaves + octaves];
            self.pixel(column, &row).put(dest, start + 4 * i);
        }
    }

    // Every row of the strip is drawn. Inlined, it costs 8 KB of stack.
    #[inline(never)]
    fn draw_rows(
        &self,
        columns: &[ColumnOctave; COLUMNS],
        strip: Strip,
        height: usize,
        dest: &mut [u8],
    )
        requires high { height ≤ side_limit }
        requires long { length dest.old ≡ 4 * strip.width * height }
        requires columns_of { ColumnsOf self.now.t self.now.tables.now strip.first strip.count columns.now }
        requires before { Worked (bytes_by self.now.t self.now.tables.now strip.width) strip.width strip.first strip.count 0 dest.old }
        ensures worked { Worked (bytes_by self.now.t self.now.tables.now strip.width) strip.width strip.first strip.count height dest.new }
        ensures same { length dest.new ≡ length dest.old }
    {
        for y in 0..height {
            self.draw_row(columns, strip, y, dest);
        }
    }

    // The strip's columns are stored one after the other, once for all the rows.
    fn store_columns(&self, strip: Strip, columns: &mut [ColumnOctave; COLUMNS])
        ensures { ColumnsOf self.now.t self.now.tables.now strip.first strip.count columns.new }
    {
        let t = &self.t;
        let octaves = t.num_octaves as usize;
        for i in 0..strip.count {
            let x0 = point_on(t.offset_x, t.sx, t.base_frequency_x, strip.first + i);
            let column = &mut columns[i * octaves..i * octaves + octaves];
            noise::store_column(self.tables, x0, column);
        }
    }

    // Every pixel of `dest` is written, strip by strip. Inlined, its columns would lie beside what the tables are made of.
    #[inline(never)]
    fn draw_strips(&self, width: usize, height: usize, dest: &mut [u8])
        requires sized { Sized width height }
        requires long { length dest.old ≡ 4 * width * height }
        ensures { dest.new ≡ tabulate (4 * width * height) (bytes_by self.now.t self.now.tables.now width) }
    {
        let mut columns = [ColumnOctave::default(); COLUMNS];
        for first in (0..width).step_by(STRIP) {
            let count = sheet::strip_from(width, first);
            let strip = Strip {
                width,
                first,
                count,
            };
            self.store_columns(strip, &mut columns);
            self.draw_rows(&columns, strip, height, dest);
        }
    }
}

// Every pixel of `dest` is written.
pub fn draw(t: Turbulence, width: usize, height: usize, dest: &mut [u8])
    requires sized { Sized width height }
    requires dest_len { length dest.old ≡ 4 * width * height }
    requires num_octaves_bound { t.num_octaves ≤ 8 }
    ensures { dest.new ≡ drawn t width height }
{
    let tables = tables::init(t.seed);
    let drawing = Drawing { t, tables: &tables };
    drawing.draw_strips(width, height, dest);
}
