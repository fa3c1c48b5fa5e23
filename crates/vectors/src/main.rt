// Replays the Rust's stored answers, a module for each group of cases, and prints how many differ.
#![tactic(auto)]

mod called;
mod cases;
mod color_matrix_cases;
mod component_transfer_cases;
mod composite_cases;
mod convolve_matrix_cases;
mod displacement_map_cases;
mod flat_noise;
mod floats_cases;
mod lighting_cases;
mod morphology_cases;
mod replay;
mod turbulence_cases;

use std::io;

fn main(rt: HostRuntime) -> io::Result<()> {
    floats_cases::replay(&rt)?;
    replay::replay(&rt, b"morphology", b"morphology.bin")?;
    replay::replay(&rt, b"color_matrix", b"color_matrix.bin")?;
    replay::replay(&rt, b"composite", b"composite.bin")?;
    replay::replay(&rt, b"component_transfer", b"component_transfer.bin")?;
    replay::replay(&rt, b"convolve_matrix", b"convolve_matrix.bin")?;
    replay::replay(&rt, b"displacement_map", b"displacement_map.bin")?;
    replay::replay(&rt, b"turbulence", b"turbulence.bin")?;
    replay::replay(&rt, b"diffuse_lighting", b"diffuse_lighting.bin")?;
    replay::replay(&rt, b"specular_lighting", b"specular_lighting.bin")?;
    flat_noise::show(&rt)
}
