// Diffuse and specular lighting, with the light as a number.
ghost use Rattle.std.specs.Prelude.{◌≡◌};
ghost use Rattle.nuprikhen.specs.Lights.{light_of, color_of, DiffuseLit, SpecularLit};
ghost use Rattle.sheet.specs.Contract.{lent, read_only};

use crate::nup_answer;
use lighting::{Color, LightSource};

// A number that names no light stands for a direction of no length, which is refused with the ranges.
fn light_of(light: u8, x: f32, y: f32, z: f32) -> LightSource
    ensures { result ≡ light_of light x y z }
{
    match light {
        0 => LightSource::Distant(x, y, z),
        1 => LightSource::Point(x, y, z),
        _ => LightSource::Distant(0.0, 0.0, 0.0),
    }
}

// Diffuse lighting; light 0 is distant and 1 a point.
#[unsafe(no_mangle)]
pub extern "C" fn nup_diffuse_lighting(
    width: u32,
    height: u32,
    light: u8,
    x: f32,
    y: f32,
    z: f32,
    surface_scale: f32,
    diffuse_constant: f32,
    red: u8,
    green: u8,
    blue: u8,
    src: &[u8],
    dest: &mut [u8],
) -> nup_answer
    ensures { DiffuseLit (light_of light x y z) surface_scale diffuse_constant (color_of red green blue) width height (read_only src.now) result (lent dest.old dest.new) }
{
    nup_answer::from(lighting::diffuse_lighting(
        light_of(light, x, y, z),
        surface_scale,
        diffuse_constant,
        Color { red, green, blue },
        width as usize,
        height as usize,
        src,
        dest,
    ))
}

// Specular lighting; light 0 is distant and 1 a point, and the exponent can only be 1.
#[unsafe(no_mangle)]
pub extern "C" fn nup_specular_lighting(
    width: u32,
    height: u32,
    light: u8,
    x: f32,
    y: f32,
    z: f32,
    surface_scale: f32,
    specular_constant: f32,
    specular_exponent: f32,
    red: u8,
    green: u8,
    blue: u8,
    src: &[u8],
    dest: &mut [u8],
) -> nup_answer
    ensures { SpecularLit (light_of light x y z) surface_scale specular_constant specular_exponent (color_of red green blue) width height (read_only src.now) result (lent dest.old dest.new) }
{
    nup_answer::from(lighting::specular_lighting(
        light_of(light, x, y, z),
        surface_scale,
        specular_constant,
        specular_exponent,
        Color { red, green, blue },
        width as usize,
        height as usize,
        src,
        dest,
    ))
}
