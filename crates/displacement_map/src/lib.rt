// The displacement map filter, as resvg's displacement_map.rs.
#![tactic(auto)]

mod axis;
mod landing;
mod moving;

ghost use Rattle.std.specs.Prelude.{◌≡◌};
ghost use Rattle.sheet.specs.Contract.{lent, Filtered};
ghost use Rattle.displacement_map.specs.DisplacementMap.{channel_number, in_canvas, in_scale, scales_answer, answer, displaced};
ghost use Rattle.displacement_map.specs.Numbered.{channel_by};

use axis::Axis;
use landing::Picture;
use sheet::Refusal;

// A channel of the map, which moves columns or rows.
#[derive(Clone, Copy, Debug, PartialEq, Eq)]
pub enum ColorChannel {
    R,
    G,
    B,
    A,
}

// A number that no channel has.
#[derive(Clone, Copy, Debug, PartialEq, Eq)]
pub struct UnknownChannel(pub u32);

impl TryFrom<u32> for ColorChannel {
    type Error = UnknownChannel;

    ghost try_from_gives = { λ number channel. channel ≡ channel_by number };

    fn try_from(number: u32) -> Result<ColorChannel, UnknownChannel> {
        match number {
            0 => Ok(ColorChannel::R),
            1 => Ok(ColorChannel::G),
            2 => Ok(ColorChannel::B),
            3 => Ok(ColorChannel::A),
            _ => Err(UnknownChannel(number)),
        }
    }
}

impl From<ColorChannel> for u32 {
    ghost from_gives = { λ channel number. number ≡ channel_number channel };

    fn from(channel: ColorChannel) -> u32 {
        match channel {
            ColorChannel::R => 0,
            ColorChannel::G => 1,
            ColorChannel::B => 2,
            ColorChannel::A => 3,
        }
    }
}

// The largest canvas scale along a side.
const CANVAS_LIMIT: f32 = 16.0;

// The largest scale of the map.
const SCALE_LIMIT: f32 = 4096.0;

fn in_canvas(s: f32) -> bool
    ensures { result ≡ in_canvas s }
{
    floats::within(-CANVAS_LIMIT, s, CANVAS_LIMIT)
}

fn in_scale(scale: f32) -> bool
    ensures { result ≡ in_scale scale }
{
    floats::within(-SCALE_LIMIT, scale, SCALE_LIMIT)
}

// Tests 4 and 5.
#[tactic(auto, unfolding(crate::specs::DisplacementMap::scales_answer))]
pub fn test(sx: f32, sy: f32, scale: f32) -> Result<(), Refusal>
    ensures { result ≡ scales_answer sx sy scale }
{
    if !floats::is_finite(sx) || !floats::is_finite(sy) || !floats::is_finite(scale) {
        return Err(Refusal::NotFinite);
    }
    if !in_canvas(sx) || !in_canvas(sy) || !in_scale(scale) {
        return Err(Refusal::Range);
    }
    Ok(())
}

// Applies a displacement map.
//
// `map` pixels should have an unpremultiplied alpha; `src` pixels can have any, and `dest` pixels have the same.
// `sx` and `sy` indicate canvas scale. Where a pixel is moved from off the sheet, it is clear.
pub fn apply(
    x_channel: ColorChannel,
    y_channel: ColorChannel,
    sx: f32,
    sy: f32,
    scale: f32,
    width: usize,
    height: usize,
    src: &[u8],
    map: &[u8],
    dest: &mut [u8],
) -> Result<(), Refusal>
    ensures { Filtered (answer sx sy scale width height src.now map.now dest.old) result (displaced x_channel y_channel sx sy scale width height src.now map.now) (lent dest.old dest.new) }
{
    sheet::test(width, height, &[src.len(), map.len(), dest.len()])?;
    test(sx, sy, scale)?;
    let picture = Picture { width, height, src };
    let mut across = [0.0f32; 256];
    let mut down = [0.0f32; 256];
    axis::store_shifts(sx, scale, &mut across);
    axis::store_shifts(sy, scale, &mut down);
    let columns = Axis::of(x_channel, sx, scale, &across);
    let rows = Axis::of(y_channel, sy, scale, &down);
    moving::displace(&columns, &rows, &picture, map, dest);
    Ok(())
}
