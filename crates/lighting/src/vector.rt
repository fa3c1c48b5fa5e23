// Vectors of three numbers, for light and for the surface's normal.
ghost use Rattle.std.specs.Prelude.{◌≡◌, cond};
ghost use Rattle.floats.specs.Order.{near_zero};
ghost use Rattle.lighting.specs.Vectors as Vectors;
ghost use Rattle.lighting.specs.Inner.Rays.{unit_by};

use std::ops::{Add, Div, Sub};

#[derive(Clone, Copy)]
pub struct Vector3 {
    pub x: f32,
    pub y: f32,
    pub z: f32,
}

impl Add for Vector3 {
    type Output = Vector3;

    ghost add_gives = { λ v u sum. sum ≡ Vectors.add v u };

    fn add(self, rhs: Vector3) -> Vector3 {
        Vector3 {
            x: self.x + rhs.x,
            y: self.y + rhs.y,
            z: self.z + rhs.z,
        }
    }
}

impl Sub for Vector3 {
    type Output = Vector3;

    ghost sub_gives = { λ v u difference. difference ≡ Vectors.sub v u };

    fn sub(self, rhs: Vector3) -> Vector3 {
        Vector3 {
            x: self.x - rhs.x,
            y: self.y - rhs.y,
            z: self.z - rhs.z,
        }
    }
}

impl Div<f32> for Vector3 {
    type Output = Vector3;

    ghost div_gives = { λ v n quotient. quotient ≡ Vectors.divided v n };

    fn div(self, n: f32) -> Vector3 {
        Vector3 {
            x: self.x / n,
            y: self.y / n,
            z: self.z / n,
        }
    }
}

impl Vector3 {
    #[tactic(auto, unfolding(crate::specs::Vectors::dot))]
    pub fn dot(self, other: Vector3) -> f32
        ensures { result ≡ Vectors.dot self other }
    {
        self.x * other.x + self.y * other.y + self.z * other.z
    }

    #[tactic(auto, unfolding(crate::specs::Vectors::length))]
    pub fn length(self) -> f32
        ensures { result ≡ Vectors.length self }
    {
        floats::sqrt(self.dot(self))
    }

    // Divided by its length, which is given, or none where that is near zero.
    pub fn normalized(self, length: f32) -> Option<Vector3>
        ensures { result ≡ cond (near_zero length) None (Some (Vectors.divided self length)) }
    {
        let unit = self / length;
        if floats::near_zero(length) {
            None
        } else {
            Some(unit)
        }
    }

    // Divided by its length, which is given; a vector whose length is near zero stays as it is.
    pub fn unit(self, length: f32) -> Vector3
        ensures { result ≡ unit_by self length }
    {
        self.normalized(length).unwrap_or(self)
    }
}
