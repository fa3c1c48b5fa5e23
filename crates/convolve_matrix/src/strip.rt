// What is worked on: a sheet, in strips of columns side by side, and the work space for a strip.
ghost use Rattle.std.specs.Prelude.{◌≡◌, ℕ, ◌+◌, ◌*◌, ◌≤◌, ◌<◌, length, get_or};
ghost use Rattle.sheet.specs.Size.{Sized};
ghost use Rattle.sheet.specs.Inner.Strips.{strip_limit};
ghost use Rattle.convolve_matrix.specs.Inner.Rows.{Kernel};

use crate::edge::Side;
use crate::{ConvolveMatrix, KERNEL_LIMIT};
use sheet::STRIP;

// A matrix, its kernel's numbers, and the sheet that it is applied to.
#[derive(Clone, Copy)]
pub struct Convolution<'a> {
    pub matrix: ConvolveMatrix,
    pub kernel: &'a [f32],
    pub width: usize,
    pub height: usize,
    pub src: &'a [u8],
    pub ghost fits: { Kernel matrix kernel.now },
    pub ghost sized: { Sized width height },
    pub ghost whole: { length src.now ≡ 4 * width * height },
}

impl Convolution<'_> {
    // The side that the kernel's columns move along.
    pub fn across(&self) -> Side
        ensures mode { result.mode ≡ self.now.matrix.edge_mode }
        ensures target { result.target ≡ self.now.matrix.target_x }
        ensures places { result.places ≡ self.now.width }
    {
        Side {
            mode: self.matrix.edge_mode,
            target: self.matrix.target_x as usize,
            places: self.width,
        }
    }

    // The side that the kernel's rows move along.
    pub fn down(&self) -> Side
        ensures mode { result.mode ≡ self.now.matrix.edge_mode }
        ensures target { result.target ≡ self.now.matrix.target_y }
        ensures places { result.places ≡ self.now.height }
    {
        Side {
            mode: self.matrix.edge_mode,
            target: self.matrix.target_y as usize,
            places: self.height,
        }
    }

    // The bytes of row y.
    pub fn line(&self, y: usize) -> &[u8]
        requires { y < self.now.height }
        ensures all { length result.now ≡ 4 * self.now.width }
        ensures bytes { (k : ℕ) → k < 4 * self.now.width → get_or result.now k 0 ≡ get_or self.now.src.now (4 * (y * self.now.width) + k) 0 }
    {
        let first = y * self.width;
        &self.src[4 * first..4 * (first + self.width)]
    }
}

// The n columns of a sheet from column x on.
#[derive(Clone, Copy)]
pub struct Strip<'a> {
    pub whole: Convolution<'a>,
    pub x: usize,
    pub n: usize,
    pub ghost inside: { x + n ≤ whole.width },
    pub ghost narrow: { n ≤ strip_limit },
}

// Four numbers for each of the most places: of a strip, and of a strip with the most columns beyond its edges.
const SUMS: usize = 4 * STRIP;

const WIDENED: usize = 4 * (STRIP + KERNEL_LIMIT as usize - 1);

// The sums of a row of the strip, and that row widened. In the other order a load often waits for the store of a sum whose
// address ends alike.
#[derive(Drop)]
pub struct Work {
    pub sums: [f32; SUMS],
    pub row: [f32; WIDENED],
}

impl Work {
    pub fn new() -> Work {
        Work {
            sums: [0.0; SUMS],
            row: [0.0; WIDENED],
        }
    }
}
