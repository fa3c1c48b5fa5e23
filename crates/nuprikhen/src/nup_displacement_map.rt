// The displacement map, with the channels as numbers.
ghost use Rattle.nuprikhen.specs.Channels.{channel_of, named_channel, Displaced};
ghost use Rattle.nuprikhen.specs.Inner.Numbered.{Names, DisplacedBy};
ghost use Rattle.sheet.specs.Contract.{lent, read_only};

use crate::nup_answer;
use displacement_map::ColorChannel;
use sheet::Refusal;

// The channel of this number; test 5 of the number.
fn channel_of(number: u8) -> Result<ColorChannel, Refusal>
    ensures { Names (named_channel number) (channel_of number) result }
{
    ColorChannel::try_from(u32::from(number)).or(Err(Refusal::Range))
}

// A displacement by the channels' numbers, which are tested after all else.
fn apply_numbered(
    x: u8,
    y: u8,
    sx: f32,
    sy: f32,
    scale: f32,
    width: usize,
    height: usize,
    src: &[u8],
    map: &[u8],
    dest: &mut [u8],
) -> Result<(), Refusal>
    ensures { DisplacedBy x y sx sy scale width height (read_only src.now) (read_only map.now) result (lent dest.old dest.new) }
{
    sheet::test(width, height, &[src.len(), map.len(), dest.len()])?;
    displacement_map::test(sx, sy, scale)?;
    let xs = channel_of(x)?;
    let ys = channel_of(y)?;
    displacement_map::apply(xs, ys, sx, sy, scale, width, height, src, map, dest)
}

// A displacement; channels 0 r, 1 g, 2 b, 3 a of the map, whose colour is straight.
#[unsafe(no_mangle)]
pub extern "C" fn nup_displacement_map(
    width: u32,
    height: u32,
    x_channel: u8,
    y_channel: u8,
    sx: f32,
    sy: f32,
    scale: f32,
    src: &[u8],
    map: &[u8],
    dest: &mut [u8],
) -> nup_answer
    ensures { Displaced x_channel y_channel sx sy scale width height (read_only src.now) (read_only map.now) result (lent dest.old dest.new) }
{
    nup_answer::from(apply_numbered(
        x_channel,
        y_channel,
        sx,
        sy,
        scale,
        width as usize,
        height as usize,
        src,
        map,
        dest,
    ))
}
