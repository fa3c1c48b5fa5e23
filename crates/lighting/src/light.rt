// What lights a pixel.
ghost use Rattle.std.specs.Prelude.{◌≡◌};
ghost use Rattle.lighting.specs.Lighting.{finite_light, in_reach, light_in_range};
ghost use Rattle.lighting.specs.Inner.Rays.{from_surface, ray_vector};

use crate::vector::Vector3;

// The largest size of a point's place.
const PLACE_LIMIT: f32 = 65536.0;

// A distant light has a direction, a point has a place.
#[derive(Clone, Copy)]
pub enum LightSource {
    Distant(f32, f32, f32),
    Point(f32, f32, f32),
}

fn is_place(x: f32) -> bool
    ensures { result ≡ in_reach x }
{
    floats::within(-PLACE_LIMIT, x, PLACE_LIMIT)
}

impl LightSource {
    pub(crate) fn is_finite(self) -> bool
        ensures { result ≡ finite_light self }
    {
        match self {
            LightSource::Distant(x, y, z) | LightSource::Point(x, y, z) => {
                floats::is_finite(x) && floats::is_finite(y) && floats::is_finite(z)
            }
        }
    }

    // Whether a direction's length is about 1, and a place within reach.
    pub(crate) fn is_in_range(self) -> bool
        ensures { result ≡ light_in_range self }
    {
        match self {
            LightSource::Distant(x, y, z) => floats::unit_triple(x, y, z),
            LightSource::Point(x, y, z) => is_place(x) && is_place(y) && is_place(z),
        }
    }
}

// How the surface throws light back.
#[derive(Clone, Copy)]
pub enum Reflection {
    Diffuse,
    Specular,
}

// What a pixel is lit along, in the definitions: the light vector, or the half vector with its length, unless that is near zero.
#[derive(Clone, Copy)]
pub enum Ray {
    Light(Vector3),
    Half(Vector3, f32),
    Short,
}

// What a light's rays are made of: a distant light's are one and the same vector, of this length; a point's go to its place.
#[derive(Clone, Copy)]
pub enum Rays {
    Same(Vector3, f32),
    To(Vector3),
}

// From the surface of a pixel to a point.
pub fn to_point(point: Vector3, scale: f32, alpha: u8, x: u16, y: u16) -> Vector3
    ensures { result ≡ from_surface point scale alpha x y }
{
    let surface = Vector3 {
        x: f32::from(x),
        y: f32::from(y),
        z: floats::normalized(alpha) * scale,
    };
    point - surface
}

impl Reflection {
    // The vector of a light vector's ray: itself, or the half vector between the light and the eye, which looks along z.
    pub fn ray_vector(self, vector: Vector3) -> Vector3
        ensures { result ≡ ray_vector self vector }
    {
        let eye = Vector3 {
            x: 0.0,
            y: 0.0,
            z: 1.0,
        };
        match self {
            Reflection::Diffuse => vector,
            Reflection::Specular => vector + eye,
        }
    }
}
