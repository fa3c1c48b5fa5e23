// Turbulence, with stitching and the kind as numbers.
ghost use Rattle.std.specs.Prelude.{◌≡◌};
ghost use Rattle.sheet.specs.Contract.{lent, Filtered};
ghost use Rattle.turbulence.specs.Turbulence.{drawn};
ghost use Rattle.nuprikhen.specs.Noise.{turbulence_of, named_kind, noise_answer, Drawn};

use crate::nup_answer;
use sheet::Refusal;
use turbulence::Turbulence;

// Whether both numbers name a case: no stitching, and one of the two kinds.
fn test_named(stitch: u8, kind: u8) -> Result<(), Refusal>
    ensures { result ≡ named_kind stitch kind }
{
    if 0 < stitch {
        return Err(Refusal::Range);
    }
    if 1 < kind {
        return Err(Refusal::Range);
    }
    Ok(())
}

// Turbulence where both numbers name a case; others are refused after the other tests.
fn apply_named(
    stitch: u8,
    kind: u8,
    t: Turbulence,
    width: usize,
    height: usize,
    dest: &mut [u8],
) -> Result<(), Refusal>
    ensures { Filtered (noise_answer stitch kind t width height dest.old) result (drawn t width height) (lent dest.old dest.new) }
{
    sheet::test(width, height, &[dest.len()])?;
    turbulence::test(t)?;
    test_named(stitch, kind)?;
    turbulence::apply(t, width, height, dest)
}

// Turbulence or fractal noise, as straight colour; kind 0 is turbulence and 1 is fractal noise. It reads no sheet.
#[unsafe(no_mangle)]
pub extern "C" fn nup_turbulence(
    width: u32,
    height: u32,
    offset_x: f64,
    offset_y: f64,
    sx: f64,
    sy: f64,
    base_frequency_x: f64,
    base_frequency_y: f64,
    num_octaves: u32,
    seed: i32,
    stitch_tiles: u8,
    kind: u8,
    dest: &mut [u8],
) -> nup_answer
    ensures { Drawn stitch_tiles kind (turbulence_of offset_x offset_y sx sy base_frequency_x base_frequency_y num_octaves seed kind) width height result (lent dest.old dest.new) }
{
    let t = Turbulence {
        offset_x,
        offset_y,
        sx,
        sy,
        base_frequency_x,
        base_frequency_y,
        num_octaves,
        seed,
        fractal_noise: kind == 1,
    };
    nup_answer::from(apply_named(stitch_tiles, kind, t, width as usize, height as usize, dest))
}
