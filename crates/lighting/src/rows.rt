// One row of a strip, in passes over its columns. Each pass fills work space of one place for each column.
ghost use Rattle.std.specs.Prelude.{◌≡◌, ℕ, ◌≤◌, ◌<◌, length, get_or, Float};
ghost use Rattle.std.specs.Float.{nan};
ghost use Rattle.sheet.specs.Inner.Strips.{strip_limit};
ghost use Rattle.surface.specs.Inner.Rows.{normal_in};
ghost use Rattle.lighting.specs.Inner.Pixels.{along_by, factor_along};
ghost use Rattle.lighting.specs.Inner.Rays.{square, ray_by};
ghost use Rattle.lighting.specs.Inner.Rows.{Filled, Measured, Sloped, RaysOf, IsSheetOf, LitRow, RowDone, from_row, point_vector, point_ray, ray_at};

use crate::light;
use crate::light::{LightSource, Rays, Reflection};
use crate::pixel::Lighting;
use crate::vector::Vector3;
use sheet::STRIP;
use surface::{Columns, Row};

// A strip's columns, with one more at each side.
const WIDENED: usize = STRIP + 2;

// Work space for the columns of a row.
#[derive(Drop)]
pub struct Work {
    columns: Columns<WIDENED>,
    lengths: [f32; STRIP],
    spans: [f32; STRIP],
    sizes: [f32; STRIP],
}

impl Work {
    pub fn new() -> Self {
        Work {
            columns: Columns::new(),
            lengths: [0.0; STRIP],
            spans: [0.0; STRIP],
            sizes: [0.0; STRIP],
        }
    }
}

// Each number becomes what `f` makes of its place and of itself.
fn fill<F: Fn(usize, f32) -> f32>(places: &mut [f32], f: F)
    requires { (i : ℕ) → i < length places.old → F.pre f i (get_or places.old i nan) }
    ensures { Filled (F.post f) places.old places.new }
{
    for (i, place) in places.iter_mut().enumerate() {
        *place = f(i, *place);
    }
}

// Each number becomes the length of the vector of its place.
fn measure<V: Fn(usize) -> Vector3>(places: &mut [f32], vector: V)
    requires { (i : ℕ) → i < length places.old → V.pre vector i }
    ensures { Measured (V.post vector) places.old places.new }
{
    fill(
        places,
        |i: usize, _: f32| -> f32
            requires { V.pre vector i }
            ensures { (v : Vector3) × V.post vector i v × (result ≡ square v) }
        {
            let v = vector(i);
            v.dot(v)
        },
    );
    floats::roots(places, places.len());
}

// From the surface of a row's column i to a point. A lighting and its row stay two parameters: where they were one struct, and the
// passes its methods, a row took up to a sixth more time.
fn from_row(lighting: Lighting, point: Vector3, row: &Row, i: usize) -> Vector3
    requires { i < row.now.strip.count }
    ensures { result ≡ from_row point lighting.scale row.now i }
{
    let alpha = row.alpha(row.strip.left + i, row.y);
    light::to_point(
        point,
        lighting.scale,
        alpha,
        row.strip.column(i),
        row.y as u16,
    )
}

// The vector of the ray from a row's column i to a point, where the distances are given.
fn point_vector(lighting: Lighting, point: Vector3, row: &Row, spans: &[f32], i: usize) -> Vector3
    requires { (i < row.now.strip.count) × (i < length spans.now) }
    ensures { result ≡ point_vector lighting point row.now spans.now i }
{
    let v = from_row(lighting, point, row, i);
    lighting.reflection.ray_vector(v.unit(spans[i]))
}

// How the surface leans along a row: its columns, and the lengths of its normal vectors.
fn slopes(lighting: Lighting, row: &Row, columns: &mut Columns<WIDENED>, lengths: &mut [f32])
    requires narrow { row.now.strip.count ≤ strip_limit }
    requires room { length lengths.old ≡ row.now.strip.count }
    ensures { Sloped lighting.scale row.now columns.new.sums columns.new.above columns.new.below lengths.new }
{
    columns.fill(row);
    measure(lengths, |i| {
        lighting.normal_vector(columns.normal_in(row, i))
    });
}

// The row's bytes of `dest`, lit by factors.
fn lit_row(lighting: Lighting, row: &Row, factors: &[f32], dest: &mut [u8])
    requires { (length factors.now ≡ row.now.strip.count) × IsSheetOf row.now.strip dest.old }
    ensures { LitRow lighting factors.now row.now dest.old dest.new }
{
    let start = 4 * (row.y * row.strip.width + row.strip.left);
    for (i, factor) in factors.iter().enumerate() {
        lighting.lit(*factor).put(dest, start + 4 * i);
    }
}

// The row's bytes of `dest` become those of the result, by the vectors of its rays and their lengths.
fn light_along<V: Fn(usize) -> Vector3, S: Fn(usize) -> f32>(
    lighting: Lighting,
    row: &Row,
    columns: &Columns<WIDENED>,
    lengths: &mut [f32],
    vector: V,
    size: S,
    dest: &mut [u8],
)
    requires narrow { row.now.strip.count ≤ strip_limit }
    requires sloped { Sloped lighting.scale row.now columns.now.sums columns.now.above columns.now.below lengths.old }
    requires callable { (i : ℕ) → i < row.now.strip.count → V.pre vector i × S.pre size i }
    requires rays { (i : ℕ) (v : Vector3) (n : Float) → i < row.now.strip.count → V.post vector i v → S.post size i n → ray_by lighting.reflection v n ≡ ray_at lighting row.now i }
    requires sheet { IsSheetOf row.now.strip dest.old }
    ensures { RowDone lighting row.now dest.old dest.new }
{
    fill(
        lengths,
        |i: usize, length: f32| -> f32
            requires { (i < row.now.strip.count) × (i < strip_limit) × V.pre vector i }
            ensures { (v : Vector3) × V.post vector i v × (result ≡ along_by lighting.scale (normal_in row.entry.now.strip columns.entry.now.sums columns.entry.now.above columns.entry.now.below i row.entry.now.y) length v) }
        { lighting.along(columns.normal_in(row, i), length, vector(i)) },
    );
    fill(
        lengths,
        |i: usize, along: f32| -> f32
            requires { S.pre size i }
            ensures { (n : Float) × S.post size i n × (result ≡ factor_along lighting.reflection lighting.constant along n) }
        { lighting.light_factor(along, size(i)) },
    );
    lit_row(lighting, row, lengths, dest);
}

// The distances of a row from a point, and the lengths of its half vectors, which only specular light asks for.
fn point_lengths(
    lighting: Lighting,
    point: Vector3,
    row: &Row,
    spans: &mut [f32],
    sizes: &mut [f32],
)
    requires light { lighting.light ≡ LightSource.Point point.x point.y point.z }
    requires room { (length spans.old ≡ row.now.strip.count) × (length sizes.old ≡ row.now.strip.count) }
    ensures { (i : ℕ) → i < row.now.strip.count → point_ray lighting point row.now spans.new sizes.new i ≡ ray_at lighting row.now i }
{
    measure(spans, |i| from_row(lighting, point, row, i));
    match lighting.reflection {
        Reflection::Diffuse => (),
        Reflection::Specular => measure(sizes, |i| point_vector(lighting, point, row, spans, i)),
    }
}

// The row's bytes of `dest` become those of the result, by what the light's rays are made of.
pub fn light_row(lighting: Lighting, rays: Rays, row: &Row, work: &mut Work, dest: &mut [u8])
    requires narrow { row.now.strip.count ≤ strip_limit }
    requires of_light { RaysOf lighting rays }
    requires sheet { IsSheetOf row.now.strip dest.old }
    ensures { RowDone lighting row.now dest.old dest.new }
{
    let Work {
        columns,
        lengths,
        spans,
        sizes,
    } = work;
    let (lengths, _) = lengths.split_at_mut(row.strip.count);
    let (spans, _) = spans.split_at_mut(row.strip.count);
    let (sizes, _) = sizes.split_at_mut(row.strip.count);
    slopes(lighting, row, columns, lengths);
    match rays {
        Rays::Same(vector, size) => {
            light_along(lighting, row, columns, lengths, |_| vector, |_| size, dest);
        }
        Rays::To(point) => {
            point_lengths(lighting, point, row, spans, sizes);
            light_along(
                lighting,
                row,
                columns,
                lengths,
                |i| point_vector(lighting, point, row, spans, i),
                |i| sizes[i],
                dest,
            );
        }
    }
}
