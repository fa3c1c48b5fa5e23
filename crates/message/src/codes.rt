// What a code names. A code past the last, which no row of a message holds, counts as the last.
ghost use Rattle.std.specs.Prelude.{◌≡◌};
ghost use Rattle.message.specs.Steps.{operator_by, edge_by, channel_by, light_by, yes_code};
ghost use Rattle.message.specs.Inner.Reading.{low_byte};

use convolve_matrix::EdgeMode;
use displacement_map::ColorChannel;
use lighting::LightSource;
use morphology::MorphologyOperator;

pub fn operator_by(code: u32) -> MorphologyOperator
    ensures { result ≡ operator_by code }
{
    MorphologyOperator::try_from(code).unwrap_or(MorphologyOperator::Erode)
}

pub fn edge_by(code: u32) -> EdgeMode
    ensures { result ≡ edge_by code }
{
    EdgeMode::try_from(code).unwrap_or(EdgeMode::Wrap)
}

pub fn channel_by(code: u32) -> ColorChannel
    ensures { result ≡ channel_by code }
{
    ColorChannel::try_from(code).unwrap_or(ColorChannel::A)
}

pub fn light_by(code: u32, x: f32, y: f32, z: f32) -> LightSource
    ensures { result ≡ light_by code x y z }
{
    match code {
        0 => LightSource::Distant(x, y, z),
        _ => LightSource::Point(x, y, z),
    }
}

pub fn yes_code(yes: bool) -> u32
    ensures { result ≡ yes_code yes }
{
    u32::from(yes)
}

// A byte, of a number that is one.
pub fn byte_of(n: u32) -> u8
    ensures { result ≡ low_byte n }
{
    (n % 256) as u8
}
