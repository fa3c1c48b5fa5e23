// The pixel that a place falls on, by whole numbers: places are counted in 2^-25ths of a pixel.
ghost use Rattle.std.specs.Prelude.{◌≡◌, ◌*◌, length};
ghost use Rattle.floats.specs.Round.{round_to};
ghost use Rattle.sheet.specs.Size.{Sized};
ghost use Rattle.displacement_map.specs.Inner.Moving.{Small, Steps, Moved};

use sheet::pixel::{Either, Pixel};

// So many steps make a pixel: a place that is no whole number of steps lies near 0.
const STEPS: u64 = 33554432;

// The steps from half a pixel before 0 on to a place, less one: a half is rounded away from 0. A place that is rounded
// below 0 wraps round to a number that is beyond every sheet.
fn steps(place: f32) -> u64
    requires { Small place }
    ensures { Steps (round_to 31 place) result }
{
    // 3 * 2^51 leaves the nearest whole number in the low bits.
    let raised: f64 = (place as f64) * 33554432.0 + 6755399441055744.0;
    std::num::wrapping_sub_u64(f64::to_bits(raised), 0x4337_ffff_ff00_0001)
}

// The picture whose pixels are moved.
#[derive(Clone, Copy)]
pub struct Picture<'a> {
    pub width: usize,
    pub height: usize,
    pub src: &'a [u8],
    pub ghost sized: { Sized width height },
    pub ghost whole: { length src.now ≡ 4 * width * height },
}

impl Picture<'_> {
    // The pixel that a column and a row round to; a clear one off the sheet.
    pub fn moved(&self, x: f32, y: f32) -> Pixel<Either>
        requires { Small x × Small y }
        ensures { Moved self.now.src.now self.now.width self.now.height x y result.number }
    {
        let column = steps(x);
        let row = steps(y);
        if column < STEPS * (self.width as u64) - 1 && row < STEPS * (self.height as u64) - 1 {
            let column = ((column + 1) / STEPS) as usize;
            let row = ((row + 1) / STEPS) as usize;
            return Pixel::at(self.src, 4 * (row * self.width + column));
        }
        Pixel::numbered(0)
    }
}
