// Lent values as a range of numbers.
ghost use Rattle.std.specs.Prelude.{◌≡◌};
ghost use Rattle.nuprikhen.specs.Numbers.{all_of};

use pool::Numbers;

// All the values as a range; a slice that is too long for one is refused 3 all the same.
pub fn all_of(values: &[f32]) -> Numbers
    ensures { result ≡ all_of values.now }
{
    Numbers {
        start: 0,
        count: values.len().min(4294967295) as u32,
    }
}
