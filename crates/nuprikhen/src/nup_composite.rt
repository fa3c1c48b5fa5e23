// The arithmetic composition.
ghost use Rattle.sheet.specs.Contract.{lent};
ghost use Rattle.composite.specs.Composite.{answer, composed};
ghost use Rattle.composite.specs.Arithmetic.{factors};
ghost use Rattle.nuprikhen.specs.Called.{Called};

use crate::nup_answer;

// k1 * src1 * src2 + k2 * src1 + k3 * src2 + k4, on premultiplied colour.
#[unsafe(no_mangle)]
pub extern "C" fn nup_arithmetic(
    width: u32,
    height: u32,
    k1: f32,
    k2: f32,
    k3: f32,
    k4: f32,
    src1: &[u8],
    src2: &[u8],
    dest: &mut [u8],
) -> nup_answer
    ensures { Called (answer k1 k2 k3 k4 width height src1.now src2.now dest.old) result (composed (factors k1 k2 k3 k4) src1.now src2.now) (lent dest.old dest.new) }
{
    nup_answer::from(composite::arithmetic(
        k1,
        k2,
        k3,
        k4,
        width as usize,
        height as usize,
        src1,
        src2,
        dest,
    ))
}
