// The sheet, strip by strip, and each strip row by row.
ghost use Rattle.std.specs.Prelude.{◌≡◌, ◌+◌, ◌*◌, ◌<◌, ◌≤◌, length};
ghost use Rattle.sheet.specs.Inner.Strips.{Worked, Changed};
ghost use Rattle.convolve_matrix.specs.ConvolveMatrix.{convolved_by};
ghost use Rattle.convolve_matrix.specs.Inner.Rows.{finished_at};
ghost use Rattle.convolve_matrix.specs.Inner.Strips.{convolved_of};

use crate::strip::{Convolution, Strip, Work};
use sheet::STRIP;

// The length of `dest` is asked four times: a struct around the `&mut` would be taken apart and made again at each call.
impl Strip<'_> {
    // Row y of `dest` becomes that of the sums. Never inlined: that leaves the loops over the sums their registers.
    #[inline(never)]
    fn finish_row(&self, y: usize, sums: &[f32], dest: &mut [u8])
        requires sums { 4 * self.now.n ≤ length sums.now }
        requires row { y < self.now.whole.height }
        requires dest { length dest.old ≡ 4 * self.now.whole.width * self.now.whole.height }
        ensures { let first = 4 * (y * self.now.whole.width + self.now.x) in Changed 0 (finished_at self.now.whole.matrix sums.now self.now.whole.src.now first) first (4 * self.now.n) dest.old dest.new }
    {
        let first = 4 * (y * self.whole.width + self.x);
        for i in 0..self.n {
            let k = 4 * i;
            let own = self.whole.src[first + k + 3];
            let pixel = self
                .whole
                .matrix
                .finished(sums[k], sums[k + 1], sums[k + 2], sums[k + 3], own);
            pixel.put(dest, first + k);
        }
    }

    // Row y of `dest` becomes that of the result.
    fn convolve_row(&self, y: usize, work: &mut Work, dest: &mut [u8])
        requires row { y < self.now.whole.height }
        requires dest { length dest.old ≡ 4 * self.now.whole.width * self.now.whole.height }
        ensures { let first = 4 * (y * self.now.whole.width + self.now.x) in Changed 0 (λ j. convolved_of self.now.whole (first + j)) first (4 * self.now.n) dest.old dest.new }
    {
        work.sums[..4 * self.n].fill(0.0);
        self.add_rows(y, work);
        self.finish_row(y, &work.sums, dest);
    }

    // Every row of `dest` becomes that of the result.
    fn convolve_rows(&self, work: &mut Work, dest: &mut [u8])
        requires dest { length dest.old ≡ 4 * self.now.whole.width * self.now.whole.height }
        requires worked { Worked (convolved_of self.now.whole) self.now.whole.width self.now.x self.now.n 0 dest.old }
        ensures { Worked (convolved_of self.now.whole) self.now.whole.width self.now.x self.now.n self.now.whole.height dest.new }
    {
        for y in 0..self.whole.height {
            self.convolve_row(y, work, dest);
        }
    }
}

impl Convolution<'_> {
    // `dest` becomes the result.
    pub fn convolve_into(&self, dest: &mut [u8])
        requires { length dest.old ≡ 4 * self.now.width * self.now.height }
        ensures { dest.new ≡ convolved_by self.now.matrix self.now.kernel.now self.now.width self.now.height self.now.src.now }
    {
        let mut work = Work::new();
        for i in 0..self.width.div_ceil(STRIP) {
            let x = STRIP * i;
            let strip = Strip {
                whole: *self,
                x,
                n: sheet::strip_from(self.width, x),
            };
            strip.convolve_rows(&mut work, dest);
        }
    }
}
