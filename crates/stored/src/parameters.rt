// What the parameters of cases hold: the numbers of choices, and values of several words.
ghost use Rattle.std.specs.Prelude.{◌≡◌, ◌%◌, ◌<◌};
ghost use Rattle.stored.specs.Parameters as Parameters;

use crate::words::Words;
use convolve_matrix::EdgeMode;
use displacement_map::ColorChannel;
use lighting::{Color, LightSource};
use turbulence::Turbulence;

// The edge mode of a number up to 2.
pub fn edge_mode(number: u32) -> EdgeMode
    ensures { result ≡ Parameters.edge_of number }
{
    EdgeMode::try_from(number).unwrap_or(EdgeMode::Wrap)
}

// The channel of a number up to 3.
pub fn color_channel(number: u32) -> ColorChannel
    ensures { result ≡ Parameters.channel_of number }
{
    ColorChannel::try_from(number).unwrap_or(ColorChannel::A)
}

fn lowest_byte(word: u32) -> u8
    ensures { result ≡ word % 256 }
{
    (word % 256) as u8
}

impl<'a> Words<'a> {
    // The light whose number, up to 1, is word i, with its three floats.
    pub fn light(self, i: usize) -> LightSource
        requires { i < 4093 }
        ensures { result ≡ Parameters.light_at self.entry.list.now self.entry.at i }
    {
        let x = self.float(i + 1);
        let y = self.float(i + 2);
        let z = self.float(i + 3);
        match self.word(i) {
            0 => LightSource::Distant(x, y, z),
            _ => LightSource::Point(x, y, z),
        }
    }

    // The colour of three words.
    pub fn color(self, i: usize) -> Color
        requires { i < 4094 }
        ensures { result ≡ Parameters.color_at self.entry.list.now self.entry.at i }
    {
        Color {
            red: lowest_byte(self.word(i)),
            green: lowest_byte(self.word(i + 1)),
            blue: lowest_byte(self.word(i + 2)),
        }
    }

    // Six doubles, the octaves and the seed: fourteen words.
    pub fn turbulence(self, i: usize, fractal_noise: bool) -> Turbulence
        requires { i < 4083 }
        ensures { result ≡ Parameters.turbulence_at self.entry.list.now self.entry.at i fractal_noise }
    {
        Turbulence {
            offset_x: self.double(i),
            offset_y: self.double(i + 2),
            sx: self.double(i + 4),
            sy: self.double(i + 6),
            base_frequency_x: self.double(i + 8),
            base_frequency_y: self.double(i + 10),
            num_octaves: self.word(i + 12),
            seed: self.signed(i + 13),
            fractal_noise,
        }
    }
}
