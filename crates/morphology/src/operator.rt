ghost use Rattle.std.specs.Prelude.{◌≡◌};
ghost use Rattle.morphology.specs.Extremum.{more_extreme};
ghost use Rattle.morphology.specs.Numbered.{Numbers, operator_number};

// What becomes of a pixel's neighbourhood.
#[derive(Clone, Copy, Debug, PartialEq, Eq)]
pub enum MorphologyOperator {
    Dilate,
    Erode,
}

// A number that names no operator.
#[derive(Clone, Copy, Debug, PartialEq, Eq)]
pub struct UnknownOperator(pub u32);

// The operator of a number: 0 dilates and 1 erodes.
impl TryFrom<u32> for MorphologyOperator {
    type Error = UnknownOperator;

    ghost try_from_gives = { Numbers };

    fn try_from(number: u32) -> Result<MorphologyOperator, UnknownOperator> {
        match number {
            0 => Ok(MorphologyOperator::Dilate),
            1 => Ok(MorphologyOperator::Erode),
            _ => Err(UnknownOperator(number)),
        }
    }
}

impl From<MorphologyOperator> for u32 {
    ghost from_gives = { λ operator number. number ≡ operator_number operator };

    fn from(operator: MorphologyOperator) -> u32 {
        match operator {
            MorphologyOperator::Dilate => 0,
            MorphologyOperator::Erode => 1,
        }
    }
}

impl MorphologyOperator {
    // The larger of two bytes for Dilate, the smaller for Erode.
    pub fn more_extreme(self, a: u8, b: u8) -> u8
        ensures { result ≡ more_extreme self a b }
    {
        match self {
            MorphologyOperator::Dilate => a.max(b),
            MorphologyOperator::Erode => a.min(b),
        }
    }
}
