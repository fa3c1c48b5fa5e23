// Lighting: the light (0 distant, 1 a point) with its three floats, the surface's scale, the constant, the colour and, for
// specular lighting, the exponent; the sheets are src and dest.
use crate::called::{Called, NotCalled};
use crate::cases::Case;
use lighting::{Color, LightSource};

// What both kinds of lighting take.
#[derive(Clone, Copy)]
struct Surface {
    light: LightSource,
    scale: f32,
    constant: f32,
    color: Color,
}

// The surface of a case with so many parameters.
fn surface_of(case: Case, count: u32) -> Result<Surface, NotCalled> {
    case.parameters_are(count)?;
    case.choice(0, 1)?;
    Ok(Surface {
        light: case.parameters.light(0),
        scale: case.parameters.float(4),
        constant: case.parameters.float(5),
        color: case.parameters.color(6),
    })
}

pub fn call_diffuse(case: Case, src: &[u8], dest: &mut [u8]) -> Called {
    let surface = surface_of(case, 9)?;
    Ok(lighting::diffuse_lighting(
        surface.light,
        surface.scale,
        surface.constant,
        surface.color,
        case.width,
        case.height,
        src,
        dest,
    ))
}

pub fn call_specular(case: Case, src: &[u8], dest: &mut [u8]) -> Called {
    let surface = surface_of(case, 10)?;
    let exponent = case.parameters.float(9);
    Ok(lighting::specular_lighting(
        surface.light,
        surface.scale,
        surface.constant,
        exponent,
        surface.color,
        case.width,
        case.height,
        src,
        dest,
    ))
}
