// docs/LAW.md's noise without frequencies or octaves: 128 in every channel for fractal noise and else 0, unless frequencies are 0
// and a gradient that is read is NaN.
use std::io;
use turbulence::Turbulence;

// A seed that draws no NaN at the lattice points around 0, and one that draws one in alpha.
const NO_NAN: i32 = 1;

const NAN_IN_ALPHA: i32 = 14921;

// Prints the bytes of two pixels for each.
pub fn show(rt: &impl Print) -> io::Result<()> {
    show_both(rt, "octaves 0", 0.25, 0, NAN_IN_ALPHA)?;
    show_both(rt, "frequencies 0", 0.0, 3, NO_NAN)?;
    show_both(rt, "frequencies 0, NaN in alpha", 0.0, 3, NAN_IN_ALPHA)
}

fn show_both(
    rt: &impl Print,
    name: &str,
    frequency: f64,
    octaves: u32,
    seed: i32,
) -> io::Result<()> {
    let turbulence = flat(frequency, octaves, seed, false);
    show_kind(rt, "turbulence", name, turbulence)?;
    let fractal_noise = flat(frequency, octaves, seed, true);
    show_kind(rt, "fractal noise", name, fractal_noise)
}

fn flat(frequency: f64, octaves: u32, seed: i32, fractal_noise: bool) -> Turbulence {
    Turbulence {
        offset_x: 0.0,
        offset_y: 0.0,
        sx: 1.0,
        sy: 1.0,
        base_frequency_x: frequency,
        base_frequency_y: frequency,
        num_octaves: octaves,
        seed,
        fractal_noise,
    }
}

fn show_kind(rt: &impl Print, kind: &str, name: &str, t: Turbulence) -> io::Result<()> {
    print!(rt; "{kind}: {name}:")?;
    let mut dest = [77u8; 8];
    let _ = turbulence::apply(t, 2, 1, &mut dest);
    for byte in dest {
        print!(rt; " {byte}")?;
    }
    println!(rt;)
}
