// The leaves over whole slices, for comparing and measuring. Two lengths that differ are refused 2.
ghost use Rattle.std.specs.Prelude.{◌≡◌, map, [], ◌∷◌, length};
ghost use Rattle.std.specs.Float.{binary32, binary64};
ghost use Rattle.std.specs.Float.Ieee.{to_unsigned};
ghost use Rattle.floats.specs.Narrow.{narrow_to};
ghost use Rattle.floats.specs.Root.{sqrt_of};
ghost use Rattle.floats.specs.Round.{round_to};
ghost use Rattle.sheet.specs.Answer.{Done};
ghost use Rattle.sheet.specs.Size.{lengths_answer};
ghost use Rattle.sheet.specs.Contract.{lent, read_only, Filtered};
ghost use Rattle.sheet.specs.Tabulate.{zeros};
ghost use Rattle.nuprikhen.specs.Called.{Called, pair_answer};
ghost use Rattle.nuprikhen.specs.Inner.Mapped.{MappedInto};

use crate::nup_answer;
use sheet::Refusal;

fn test(a: usize, b: usize) -> Result<(), Refusal>
    ensures { result ≡ lengths_answer a (b ∷ []) }
{
    if b != a {
        return Err(Refusal::Length);
    }
    Ok(())
}

// out becomes `f` of each of xs.
fn map_into<A: Copy, B: Copy, F: Fn(A) -> B>(xs: &[A], out: &mut [B], f: F) -> Result<(), Refusal>
    requires { F.IsAlwaysCallable f }
    ensures { MappedInto (F.post f) (read_only xs.now) result (lent out.old out.new) }
{
    test(xs.len(), out.len())?;
    for i in 0..xs.len() {
        out[i] = f(xs[i]);
    }
    Ok(())
}

// dst takes src's bytes.
fn copy_into(src: &[u8], dst: &mut [u8]) -> Result<(), Refusal>
    ensures { Filtered (pair_answer (read_only src.now) (lent dst.old dst.new)) result src.now (lent dst.old dst.new) }
{
    test(src.len(), dst.len())?;
    sheet::copy(src, dst);
    Ok(())
}

// Each of xs as a byte.
#[unsafe(no_mangle)]
pub extern "C" fn nup_to_bytes(xs: &[f32], out: &mut [u8]) -> nup_answer
    ensures { Called (pair_answer (read_only xs.now) (lent out.old out.new)) result (map (to_unsigned 8) xs.now) (lent out.old out.new) }
{
    nup_answer::from(map_into(xs, out, |x| floats::to_byte(x)))
}

// Each of xs rounded, a half away from zero.
#[unsafe(no_mangle)]
pub extern "C" fn nup_round_to_i32s(xs: &[f32], out: &mut [i32]) -> nup_answer
    ensures { Called (pair_answer (read_only xs.now) (lent out.old out.new)) result (map (round_to 31) xs.now) (lent out.old out.new) }
{
    nup_answer::from(map_into(xs, out, |x| floats::round_to_i32(x)))
}

// The square root of each of xs.
#[unsafe(no_mangle)]
pub extern "C" fn nup_sqrt32(xs: &[f32], out: &mut [f32]) -> nup_answer
    ensures { Called (pair_answer (read_only xs.now) (lent out.old out.new)) result (map (sqrt_of binary32) xs.now) (lent out.old out.new) }
{
    nup_answer::from(map_into(xs, out, |x| floats::sqrt(x)))
}

// The square root of each of xs.
#[unsafe(no_mangle)]
pub extern "C" fn nup_sqrt64(xs: &[f64], out: &mut [f64]) -> nup_answer
    ensures { Called (pair_answer (read_only xs.now) (lent out.old out.new)) result (map (sqrt_of binary64) xs.now) (lent out.old out.new) }
{
    nup_answer::from(map_into(xs, out, |x| floats::sqrt(x)))
}

// Each of xs rounded to the nearest f32.
#[unsafe(no_mangle)]
pub extern "C" fn nup_to_f32s(xs: &[f64], out: &mut [f32]) -> nup_answer
    ensures { Called (pair_answer (read_only xs.now) (lent out.old out.new)) result (map (narrow_to binary32) xs.now) (lent out.old out.new) }
{
    nup_answer::from(map_into(xs, out, |x| floats::to_f32(x)))
}

// dst takes src's bytes.
#[unsafe(no_mangle)]
pub extern "C" fn nup_copy(src: &[u8], dst: &mut [u8]) -> nup_answer
    ensures { Called (pair_answer (read_only src.now) (lent dst.old dst.new)) result src.now (lent dst.old dst.new) }
{
    nup_answer::from(copy_into(src, dst))
}

// Every byte of dst becomes 0.
#[unsafe(no_mangle)]
pub extern "C" fn nup_clear(dst: &mut [u8]) -> nup_answer
    ensures { Called Done result (zeros (length dst.old)) (lent dst.old dst.new) }
{
    sheet::clear(dst);
    nup_answer::from(Ok(()))
}
