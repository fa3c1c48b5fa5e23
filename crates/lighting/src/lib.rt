// Diffuse and specular lighting, as resvg's lighting.rs, with distant and point lights.
#![tactic(auto)]

mod apply;
mod light;
mod pixel;
mod rows;
mod vector;

ghost use Rattle.std.specs.Prelude.{◌≡◌};
ghost use Rattle.floats.specs.Order.{within};
ghost use Rattle.sheet.specs.Contract.{lent, Filtered};
ghost use Rattle.lighting.specs.Lighting.{m256, c256, finite_numbers, numbers_in_range, tested};
ghost use Rattle.lighting.specs.Lighting.{diffuse_answer, specular_answer, answer, lit, diffuse, specular};

pub use light::LightSource;
use light::Reflection;
pub use pixel::Color;
use pixel::Lighting;
use sheet::Refusal;

// The largest size of the surface's scale and of a lighting constant.
const SCALE_LIMIT: f32 = 256.0;

#[tactic(auto, unfolding(crate::specs::Lighting::finite_numbers))]
fn finite_numbers(light: LightSource, scale: f32, constant: f32) -> bool
    ensures { result ≡ finite_numbers light scale constant }
{
    light.is_finite() && floats::is_finite(scale) && floats::is_finite(constant)
}

fn is_scale(x: f32) -> bool
    ensures { result ≡ within m256 x c256 }
{
    floats::within(-SCALE_LIMIT, x, SCALE_LIMIT)
}

#[tactic(auto, unfolding(crate::specs::Lighting::numbers_in_range))]
fn numbers_in_range(light: LightSource, scale: f32, constant: f32) -> bool
    ensures { result ≡ numbers_in_range light scale constant }
{
    light.is_in_range() && is_scale(scale) && floats::within(0.0, constant, SCALE_LIMIT)
}

// Test 4, then 5.
fn of_tests(finites: bool, in_ranges: bool) -> Result<(), Refusal>
    ensures { result ≡ tested finites in_ranges }
{
    if !finites {
        return Err(Refusal::NotFinite);
    }
    if !in_ranges {
        return Err(Refusal::Range);
    }
    Ok(())
}

// Tests 4 and 5 of a diffuse lighting.
#[tactic(auto, unfolding(crate::specs::Lighting::diffuse_answer))]
pub fn test_diffuse(light: LightSource, scale: f32, constant: f32) -> Result<(), Refusal>
    ensures { result ≡ diffuse_answer light scale constant }
{
    of_tests(
        finite_numbers(light, scale, constant),
        numbers_in_range(light, scale, constant),
    )
}

// Tests 4 and 5 of a specular lighting, whose exponent can only be 1.
#[tactic(auto, unfolding(crate::specs::Lighting::specular_answer))]
pub fn test_specular(
    light: LightSource,
    scale: f32,
    constant: f32,
    exponent: f32,
) -> Result<(), Refusal>
    ensures { result ≡ specular_answer light scale constant exponent }
{
    of_tests(
        finite_numbers(light, scale, constant) && floats::is_finite(exponent),
        numbers_in_range(light, scale, constant) && floats::within(1.0, exponent, 1.0),
    )
}

// Renders a diffuse lighting.
//
// `src` pixels may have any kind of colour, since only alpha is read. `dest` pixels will have a straight one. A sheet
// below 3 x 3 is only cleared.
pub fn diffuse_lighting(
    light: LightSource,
    scale: f32,
    constant: f32,
    color: Color,
    width: usize,
    height: usize,
    src: &[u8],
    dest: &mut [u8],
) -> Result<(), Refusal>
    ensures { Filtered (answer (diffuse_answer light scale constant) width height src.now dest.old) result (lit (diffuse light scale constant color) width height src.now) (lent dest.old dest.new) }
{
    let tested = test_diffuse(light, scale, constant);
    let lighting = Lighting {
        reflection: Reflection::Diffuse,
        light,
        scale,
        constant,
        color,
    };
    apply::filter(tested, lighting, width, height, src, dest)
}

// Renders a specular lighting.
//
// `src` pixels may have any kind of colour, since only alpha is read. `dest` pixels will have a premultiplied one. A
// sheet below 3 x 3 is only cleared.
pub fn specular_lighting(
    light: LightSource,
    scale: f32,
    constant: f32,
    exponent: f32,
    color: Color,
    width: usize,
    height: usize,
    src: &[u8],
    dest: &mut [u8],
) -> Result<(), Refusal>
    ensures { Filtered (answer (specular_answer light scale constant exponent) width height src.now dest.old) result (lit (specular light scale constant color) width height src.now) (lent dest.old dest.new) }
{
    let tested = test_specular(light, scale, constant, exponent);
    let lighting = Lighting {
        reflection: Reflection::Specular,
        light,
        scale,
        constant,
        color,
    };
    apply::filter(tested, lighting, width, height, src, dest)
}
