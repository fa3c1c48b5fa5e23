// Morphology, with the operator as a number.
ghost use Rattle.sheet.specs.Contract.{lent, Filtered, Cleared};
ghost use Rattle.morphology.specs.Morphology.{morphed};
ghost use Rattle.nuprikhen.specs.Operators.{operator_of, named_operator, morphology_answer, Morphed};
ghost use Rattle.nuprikhen.specs.Inner.Numbered.{Names};

use crate::nup_answer;
use morphology::MorphologyOperator;
use sheet::Refusal;

// The operator of this number; test 5 of the number.
fn operator_of(op: u8) -> Result<MorphologyOperator, Refusal>
    ensures { Names (named_operator op) (operator_of op) result }
{
    MorphologyOperator::try_from(u32::from(op)).or(Err(Refusal::Range))
}

// The filter by the operator's number, which is tested after all else.
fn apply_numbered(
    op: u8,
    rx: f32,
    ry: f32,
    width: usize,
    height: usize,
    src: &mut [u8],
    scratch: &mut [u8],
) -> Result<(), Refusal>
    ensures filtered { Filtered (morphology_answer (named_operator op) rx ry width height src.old scratch.old) result (morphed (operator_of op) rx ry width height src.old) (lent src.old src.new) }
    ensures cleared { Cleared 0 (morphology_answer (named_operator op) rx ry width height src.old scratch.old) (lent scratch.old scratch.new) }
{
    sheet::test(width, height, &[src.len(), scratch.len()])?;
    morphology::test(rx, ry)?;
    let operator = operator_of(op)?;
    morphology::apply(operator, rx, ry, width, height, src, scratch)
}

// Morphology in place; op 0 dilates and 1 erodes.
#[unsafe(no_mangle)]
pub extern "C" fn nup_morphology(
    width: u32,
    height: u32,
    op: u8,
    rx: f32,
    ry: f32,
    src: &mut [u8],
    scratch: &mut [u8],
) -> nup_answer
    ensures { Morphed op rx ry width height result (lent src.old src.new) (lent scratch.old scratch.new) }
{
    nup_answer::from(apply_numbered(op, rx, ry, width as usize, height as usize, src, scratch))
}
