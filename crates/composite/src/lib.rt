// Arithmetic composition, as resvg's composite.rs.
#![tactic(auto)]

mod pixel;

ghost use Rattle.std.specs.Prelude.{◌≡◌, ◌%◌, length};
ghost use Rattle.sheet.specs.Contract.{lent, Filtered};
ghost use Rattle.composite.specs.Composite.{factors_answer, answer, composed};
ghost use Rattle.composite.specs.Arithmetic.{factors};

pub use pixel::Factors;
use sheet::Refusal;
use sheet::pixel::Premultiplied;

// Tests 4 and 5.
pub fn test(k1: f32, k2: f32, k3: f32, k4: f32) -> Result<(), Refusal>
    ensures { result ≡ factors_answer k1 k2 k3 k4 }
{
    pool::test(&[k1, k2, k3, k4])
}

// Composes pixel by pixel. Every pixel of `dest` is written.
fn compose(k: Factors, src1: &[u8], src2: &[u8], dest: &mut [u8])
    requires src1_len { length src1.now % 4 ≡ 0 }
    requires src2_len { length src2.now ≡ length src1.now }
    requires dest_len { length dest.old ≡ length src1.now }
    ensures { dest.new ≡ composed k src1.now src2.now }
{
    for i in 0..dest.len() / 4 {
        let at = 4 * i;
        let c1 = Premultiplied::at(src1, at);
        let c2 = Premultiplied::at(src2, at);
        pixel::composed(k, c1, c2).put(dest, at);
    }
}

// Performs an arithmetic composition.
//
// `src1` and `src2` pixels should have a premultiplied alpha, and `dest` pixels will. A pixel whose alpha is near zero is
// clear.
pub fn arithmetic(
    k1: f32,
    k2: f32,
    k3: f32,
    k4: f32,
    width: usize,
    height: usize,
    src1: &[u8],
    src2: &[u8],
    dest: &mut [u8],
) -> Result<(), Refusal>
    ensures { Filtered (answer k1 k2 k3 k4 width height src1.now src2.now dest.old) result (composed (factors k1 k2 k3 k4) src1.now src2.now) (lent dest.old dest.new) }
{
    sheet::test(width, height, &[src1.len(), src2.len(), dest.len()])?;
    test(k1, k2, k3, k4)?;
    compose(Factors { k1, k2, k3, k4 }, src1, src2, dest);
    Ok(())
}
