// One pixel: how strongly it is lit, and its bytes.
ghost use Rattle.std.specs.Prelude.{◌≡◌};
ghost use Rattle.lighting.specs.Light as Light;
ghost use Rattle.lighting.specs.Lighting.{lit_colour};
ghost use Rattle.lighting.specs.Inner.Pixels.{along_by, factor_along, Lit};
ghost use Rattle.lighting.specs.Inner.Rows.{RaysOf};

use crate::light::{LightSource, Rays, Reflection};
use crate::vector::Vector3;
use sheet::pixel::{Either, Pixel, Premultiplied, Straight};
use surface::Normal;

// A light's colour.
#[derive(Clone, Copy)]
pub struct Color {
    pub red: u8,
    pub green: u8,
    pub blue: u8,
}

// All that a sheet is lit by.
#[derive(Clone, Copy)]
pub struct Lighting {
    pub reflection: Reflection,
    pub light: LightSource,
    pub scale: f32,
    pub constant: f32,
    pub color: Color,
}

#[tactic(auto, unfolding(crate::specs::Light::flat))]
fn is_flat(normal: Normal) -> bool
    ensures { result ≡ Light.flat normal }
{
    floats::near_zero(normal.x) && floats::near_zero(normal.y)
}

// A colour's channel by a factor. The cut brings it to 0 to 255 by itself.
#[tactic(auto, using(crate::proofs::Halves::bounded_cut), unfolding(crate::specs::Lighting::lit_colour))]
fn compute(c: u8, factor: f32) -> u8
    ensures { result ≡ lit_colour c factor }
{
    floats::to_byte(f32::from(c) * factor + 0.5)
}

impl Color {
    fn diffuse(self, factor: f32) -> Straight
        ensures { Lit Reflection.Diffuse self factor result.number }
    {
        Straight::of(
            compute(self.red, factor),
            compute(self.green, factor),
            compute(self.blue, factor),
            255,
        )
    }

    fn specular(self, factor: f32) -> Premultiplied
        ensures { Lit Reflection.Specular self factor result.number }
    {
        let r = compute(self.red, factor);
        let g = compute(self.green, factor);
        let b = compute(self.blue, factor);
        Premultiplied::of(r, g, b, r.max(g).max(b))
    }
}

impl Lighting {
    // What its light's rays are made of.
    pub fn rays(self) -> Rays
        ensures { RaysOf self result }
    {
        match self.light {
            LightSource::Distant(x, y, z) => {
                let vector = self.reflection.ray_vector(Vector3 { x, y, z });
                Rays::Same(vector, vector.length())
            }
            LightSource::Point(x, y, z) => Rays::To(Vector3 { x, y, z }),
        }
    }

    // The surface's normal vector.
    pub fn normal_vector(self, normal: Normal) -> Vector3
        ensures { result ≡ Light.normal_vector self.scale normal }
    {
        Vector3 {
            x: normal.x * (self.scale / 255.0) * normal.fx,
            y: normal.y * (self.scale / 255.0) * normal.fy,
            z: 1.0,
        }
    }

    // How far v goes along the surface's normal, whose vector has the given length.
    pub fn along(self, normal: Normal, length: f32, v: Vector3) -> f32
        ensures { result ≡ along_by self.scale normal length v }
    {
        let slanted = self.normal_vector(normal).dot(v) / length;
        if is_flat(normal) { v.z } else { slanted }
    }

    // resvg's `light_factor`, where it is given how far the ray's vector goes along the normal, and the vector's length.
    pub fn light_factor(self, along: f32, size: f32) -> f32
        ensures { result ≡ factor_along self.reflection self.constant along size }
    {
        match self.reflection {
            Reflection::Diffuse => self.constant * along,
            Reflection::Specular => {
                if floats::near_zero(size) {
                    0.0
                } else {
                    self.constant * (along / size)
                }
            }
        }
    }

    // The pixel that is lit by a factor.
    pub fn lit(self, factor: f32) -> Pixel<Either>
        ensures { Lit self.reflection self.color factor result.number }
    {
        match self.reflection {
            Reflection::Diffuse => Pixel::numbered(self.color.diffuse(factor).number),
            Reflection::Specular => Pixel::numbered(self.color.specular(factor).number),
        }
    }
}
