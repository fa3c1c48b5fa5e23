// How far the map's bytes move a pixel along one side of the sheet.
ghost use Rattle.std.specs.Prelude.{◌≡◌, ◌<◌, T};
ghost use Rattle.sheet.specs.Pixel.{channel};
ghost use Rattle.sheet.specs.Size.{side_limit};
ghost use Rattle.displacement_map.specs.DisplacementMap as DisplacementMap;
ghost use Rattle.displacement_map.specs.DisplacementMap.{channel_number, in_canvas, in_scale};
ghost use Rattle.displacement_map.specs.Inner.Moving.{Shifts, Small};

use crate::ColorChannel;
use sheet::pixel::Straight;

// How far a byte of the map moves.
#[tactic(auto, unfolding(crate::specs::DisplacementMap::shift, crate::specs::DisplacementMap::offset))]
fn shift(c: u8, s: f32, scale: f32) -> f32
    ensures { result ≡ DisplacementMap.shift s scale c }
{
    (floats::normalized(c) - 0.5) * s * scale
}

// How far each byte of the map moves is stored. Given back, or moved into an axis, the array would stand on the stack twice.
pub fn store_shifts(s: f32, scale: f32, values: &mut [f32; 256])
    ensures { Shifts s scale values.new }
{
    for i in 0..256 {
        values[i] = shift(i as u8, s, scale);
    }
}

// The selected channel of the map's pixel.
fn selected(selector: ColorChannel, pixel: Straight) -> u8
    ensures { result ≡ channel (channel_number selector) pixel.number }
{
    match selector {
        ColorChannel::R => pixel.red(),
        ColorChannel::G => pixel.green(),
        ColorChannel::B => pixel.blue(),
        ColorChannel::A => pixel.alpha(),
    }
}

// How the map moves columns, or rows: by one of its channels, each of whose bytes has a shift.
#[derive(Clone, Copy)]
pub struct Axis<'a> {
    pub selector: ColorChannel,
    pub s: f32,
    pub scale: f32,
    shifts: &'a [f32; 256],
    pub ghost canvas: { T (in_canvas s) },
    pub ghost range: { T (in_scale scale) },
    pub ghost shifted: { Shifts s scale shifts.now },
}

impl<'a> Axis<'a> {
    pub fn of(selector: ColorChannel, s: f32, scale: f32, shifts: &'a [f32; 256]) -> Axis<'a>
        requires range { T (in_canvas s) × T (in_scale scale) }
        requires shifted { Shifts s scale shifts.now }
        ensures selector { result.selector ≡ selector }
        ensures s { result.s ≡ s }
        ensures scale { result.scale ≡ scale }
    {
        Axis {
            selector,
            s,
            scale,
            shifts,
        }
    }

    // Where the map's pixel sends column or row i, before that is rounded.
    pub fn place(&self, i: usize, pixel: Straight) -> f32
        requires { i < side_limit }
        ensures small { Small result }
        ensures value { result ≡ DisplacementMap.place self.now.s self.now.scale i (channel (channel_number self.now.selector) pixel.number) }
    {
        i as f32 + self.shifts[selected(self.selector, pixel) as usize]
    }
}
