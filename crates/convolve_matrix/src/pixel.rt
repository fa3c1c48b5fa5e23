// One pixel of the result, of the sums over its window.
ghost use Rattle.std.specs.Prelude.{◌≡◌};
ghost use Rattle.convolve_matrix.specs.ConvolveMatrix as Convolve;
ghost use Rattle.convolve_matrix.specs.Inner.Rows.{Finished};

use crate::ConvolveMatrix;
use sheet::pixel::Premultiplied;

// Rust's `(x * 255.0 + 0.5) as u8`.
#[tactic(auto, unfolding(crate::specs::ConvolveMatrix::to_byte))]
fn rounded_to_byte(x: f32) -> u8
    ensures { result ≡ Convolve.to_byte x }
{
    floats::to_byte(x * 255.0 + 0.5)
}

impl ConvolveMatrix {
    #[tactic(auto, unfolding(crate::specs::ConvolveMatrix::new_alpha))]
    fn new_alpha(self, sum: f32, own: u8) -> f32
        ensures { result ≡ Convolve.new_alpha self sum own }
    {
        if self.preserve_alpha {
            floats::normalized(own)
        } else {
            sum / self.divisor + self.bias
        }
    }

    // A colour's number, within the new alpha, which is bounded.
    #[tactic(auto, unfolding(crate::specs::ConvolveMatrix::bounded_colour))]
    fn bounded_colour(self, x: f32, bounded: f32) -> f32
        ensures { result ≡ Convolve.bounded_colour self x bounded }
    {
        if self.preserve_alpha {
            floats::bound(0.0, x, 1.0) * bounded
        } else {
            floats::bound(0.0, x, bounded)
        }
    }

    // A colour of its sum, the new alpha a, and the new alpha bounded.
    #[tactic(auto, unfolding(crate::specs::ConvolveMatrix::colour_value))]
    fn calc(self, sum: f32, a: f32, bounded: f32) -> u8
        ensures { result ≡ Convolve.calc self sum a bounded }
    {
        let x = sum / self.divisor + self.bias * a;
        rounded_to_byte(self.bounded_colour(x, bounded))
    }

    // The pixel of four sums, r, g, b and a, and of the alpha that stood in its place.
    pub(crate) fn finished(self, r: f32, g: f32, b: f32, a: f32, own: u8) -> Premultiplied
        ensures { Finished self r g b a own result.number }
    {
        let new_a = self.new_alpha(a, own);
        let bounded_new_a = floats::bound(0.0, new_a, 1.0);
        Premultiplied::of(
            self.calc(r, new_a, bounded_new_a),
            self.calc(g, new_a, bounded_new_a),
            self.calc(b, new_a, bounded_new_a),
            rounded_to_byte(bounded_new_a),
        )
    }
}
