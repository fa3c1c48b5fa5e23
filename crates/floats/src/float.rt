// The two float types, as this crate's generic functions see them.
ghost use Rattle.std.specs.Prelude.{◌≡◌, refl, Float};
ghost use Rattle.std.specs.Float.{Format, binary32, binary64};
ghost use Rattle.std.specs.Float.Ieee.Scale.{finite};
ghost use Rattle.std.specs.Ordering.{float_partial_cmp};
ghost use Rattle.floats.specs.Root.{sqrt_of};

pub trait Float: Copy + PartialOrd {
    ghost format: { Format };

    ghost value: { Self → Float };

    fn is_finite(self) -> bool
        ensures { result ≡ finite (value self) };

    fn sqrt(self) -> Self
        ensures { value result ≡ sqrt_of format (value self) };

    ghost order: { (x y : Self) → Self.partial_cmp x y ≡ float_partial_cmp (value x) (value y) };
}

impl Float for f32 {
    ghost format = { binary32 };

    ghost value = { λ x. x };

    ghost order = { λ x y. refl };

    fn is_finite(self) -> bool {
        f32::is_finite(self)
    }

    // Of a NaN the bits are kept, and what is below zero has one NaN, as on every processor.
    fn sqrt(self) -> f32 {
        if self > 0.0 {
            f32::sqrt(self)
        } else if self < 0.0 {
            f32::NAN
        } else {
            self
        }
    }
}

impl Float for f64 {
    ghost format = { binary64 };

    ghost value = { λ x. x };

    ghost order = { λ x y. refl };

    fn is_finite(self) -> bool {
        f64::is_finite(self)
    }

    // Of a NaN the bits are kept, and what is below zero has one NaN, as on every processor.
    fn sqrt(self) -> f64 {
        if self > 0.0 {
            f64::sqrt(self)
        } else if self < 0.0 {
            f64::NAN
        } else {
            self
        }
    }
}
