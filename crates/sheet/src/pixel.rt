// Pixels: four bytes of a sheet as one number, red lowest. How the colours are given is part of the type.
ghost use Rattle.std.specs.Prelude.{◌≡◌, ◌+◌, ◌%◌, ◌≤◌, ◌<◌, length};
ghost use Rattle.sheet.specs.Pixel.{channel, Channels, PixelAt, set_channels, set_pixel, Mapped};

use std::marker::PhantomData;

// A kind of colours by which a pixel's channels are known.
pub trait Colours: Copy {}

// Colours that are not multiplied by alpha.
#[derive(Clone, Copy)]
pub struct Unmultiplied;

impl Colours for Unmultiplied {}

// Colours that are multiplied by alpha.
#[derive(Clone, Copy)]
pub struct Multiplied;

impl Colours for Multiplied {}

// Colours of either kind: such a pixel is moved, and has no channels to be looked at.
#[derive(Clone, Copy)]
pub struct Either;

// A pixel's number, whose colours are of kind K.
#[derive(Clone, Copy)]
pub struct Pixel<K> {
    pub number: u32,
    pub kind: PhantomData<K>,
}

pub type Straight = Pixel<Unmultiplied>;

pub type Premultiplied = Pixel<Multiplied>;

impl<K: Colours> Pixel<K> {
    // The pixel of four channels.
    pub fn of(r: u8, g: u8, b: u8, a: u8) -> Pixel<K>
        ensures { Channels result.number r g b a }
    {
        Pixel::numbered(number_of(r, g, b, a))
    }

    pub fn red(self) -> u8
        ensures { result ≡ channel 0 self.number }
    {
        lowest(self.number)
    }

    pub fn green(self) -> u8
        ensures { result ≡ channel 1 self.number }
    {
        lowest(self.number / 256)
    }

    pub fn blue(self) -> u8
        ensures { result ≡ channel 2 self.number }
    {
        lowest(self.number / 65536)
    }

    pub fn alpha(self) -> u8
        ensures { result ≡ channel 3 self.number }
    {
        lowest(self.number / 16777216)
    }
}

impl<K: Copy> Pixel<K> {
    // The pixel of a number.
    pub fn numbered(number: u32) -> Pixel<K>
        ensures { result.number ≡ number }
    {
        Pixel {
            number,
            kind: PhantomData,
        }
    }

    // The pixel whose bytes begin at k.
    pub fn at(sheet: &[u8], k: usize) -> Pixel<K>
        requires { k + 3 < length sheet.now }
        ensures { PixelAt sheet.now k result.number }
    {
        let number = number_of(sheet[k], sheet[k + 1], sheet[k + 2], sheet[k + 3]);
        Pixel::numbered(number)
    }

    // Stores the pixel at the bytes from k on.
    #[tactic(auto, unfolding(crate::specs::Pixel::set_channels))]
    pub fn put(self, sheet: &mut [u8], k: usize)
        requires { k + 3 < length sheet.old }
        ensures { sheet.new ≡ set_pixel sheet.old k self.number }
    {
        sheet[k] = lowest(self.number);
        sheet[k + 1] = lowest(self.number / 256);
        sheet[k + 2] = lowest(self.number / 65536);
        sheet[k + 3] = lowest(self.number / 16777216);
    }
}

// Each pixel of the sheet becomes what `f` makes of it.
pub fn map_pixels<K: Copy, F: Fn(Pixel<K>) -> Pixel<K>>(sheet: &mut [u8], f: F)
    requires pixels { length sheet.old % 4 ≡ 0 }
    requires callable { F.IsAlwaysCallable f }
    ensures { Mapped (λ p. p.number) (F.post f) sheet.old sheet.new }
{
    for i in 0..sheet.len() / 4 {
        f(Pixel::at(sheet, 4 * i)).put(sheet, 4 * i);
    }
}

fn number_of(r: u8, g: u8, b: u8, a: u8) -> u32
    ensures { Channels result r g b a }
{
    u32::from_le_bytes([r, g, b, a])
}

fn lowest(number: u32) -> u8
    ensures { result ≡ channel 0 number }
{
    (number % 256) as u8
}
