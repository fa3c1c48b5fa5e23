// A pixel's channels as numbers from 0 to 1, and a matrix's rows applied to them.
ghost use Rattle.std.specs.Prelude.{◌≡◌, ◌+◌, ◌*◌, ◌<◌, length};
ghost use Rattle.floats.specs.Channel.{from_normalized};
ghost use Rattle.sheet.specs.Pixel.{Channels};
ghost use Rattle.color_matrix.specs.Rows as Rows;
ghost use Rattle.color_matrix.specs.Inner.Pixels.{by_colour_row, ByMatrix, ByColours};

use sheet::pixel::Straight;

// A pixel's channels, each from 0 to 1.
#[derive(Clone, Copy)]
pub struct Components {
    pub r: f32,
    pub g: f32,
    pub b: f32,
    pub a: f32,
}

// One row of a matrix: what each channel counts for, and what is added.
#[derive(Clone, Copy)]
pub struct Row {
    pub r: f32,
    pub g: f32,
    pub b: f32,
    pub a: f32,
    pub added: f32,
}

// One row of a matrix of colours alone.
#[derive(Clone, Copy)]
pub struct ColourRow {
    pub r: f32,
    pub g: f32,
    pub b: f32,
}

pub fn to_normalized_components(pixel: Straight) -> Components
    ensures { result ≡ Rows.components_of pixel.number }
{
    Components {
        r: floats::normalized(pixel.red()),
        g: floats::normalized(pixel.green()),
        b: floats::normalized(pixel.blue()),
        a: floats::normalized(pixel.alpha()),
    }
}

// Row i of twenty numbers.
pub fn matrix_row(m: &[f32], i: usize) -> Row
    requires i_bound { i < 4 }
    requires m_len { length m.now ≡ 20 }
    ensures { result ≡ Rows.row_of m.now i }
{
    let at = 5 * i;
    Row {
        r: m[at],
        g: m[at + 1],
        b: m[at + 2],
        a: m[at + 3],
        added: m[at + 4],
    }
}

// Row i of nine numbers.
pub fn colour_row(m: &[f32], i: usize) -> ColourRow
    requires i_bound { i < 3 }
    requires m_len { length m.now ≡ 9 }
    ensures { result ≡ Rows.colour_row_of m.now i }
{
    let at = 3 * i;
    ColourRow {
        r: m[at],
        g: m[at + 1],
        b: m[at + 2],
    }
}

fn applied(row: Row, c: Components) -> u8
    ensures { result ≡ from_normalized (Rows.sum row c) }
{
    floats::from_normalized(c.r * row.r + c.g * row.g + c.b * row.b + c.a * row.a + row.added)
}

fn colour_applied(row: ColourRow, c: Components) -> u8
    ensures { result ≡ from_normalized (Rows.colour_sum row c) }
{
    floats::from_normalized(c.r * row.r + c.g * row.g + c.b * row.b)
}

// A matrix of four rows applied to a pixel.
pub fn matrix_pixel(r: Row, g: Row, b: Row, a: Row, pixel: Straight) -> Straight
    ensures { ByMatrix r g b a pixel.number result.number }
{
    let c = to_normalized_components(pixel);
    Straight::of(applied(r, c), applied(g, c), applied(b, c), applied(a, c))
}

// A matrix of colours applied to a pixel, which keeps its alpha.
pub fn colour_pixel(r: ColourRow, g: ColourRow, b: ColourRow, pixel: Straight) -> Straight
    ensures { ByColours r g b pixel.number result.number }
{
    let c = to_normalized_components(pixel);
    Straight::of(
        colour_applied(r, c),
        colour_applied(g, c),
        colour_applied(b, c),
        pixel.alpha(),
    )
}

// A pixel without colour whose alpha is the luminance of a pixel.
pub fn luminance_pixel(pixel: Straight) -> Straight
    ensures { Channels result.number 0 0 0 (by_colour_row Rows.luminance pixel.number) }
{
    let c = to_normalized_components(pixel);
    let luminance = ColourRow {
        r: 0.2125,
        g: 0.7154,
        b: 0.0721,
    };
    Straight::of(0, 0, 0, colour_applied(luminance, c))
}
