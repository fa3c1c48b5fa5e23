// Columns of a sheet, side by side, row by row.
ghost use Rattle.std.specs.Prelude.{◌≡◌, ◌+◌, ◌*◌, ◌≤◌, ◌<◌, length};
ghost use Rattle.sheet.specs.Size.{Sized};
ghost use Rattle.surface.specs.Surface as Surface;

// Columns of a sheet of these sides: `count` of them, from column `left` on.
#[derive(Clone, Copy)]
pub struct Strip {
    pub width: usize,
    pub height: usize,
    pub left: usize,
    pub count: usize,
    pub ghost sized: { Sized width height },
    pub ghost some: { 0 < count },
    pub ghost inside: { left + count ≤ width },
}

impl Strip {
    // The strip's column i, as the sheet counts it.
    pub fn column(&self, i: usize) -> u16
        requires { i < self.now.count }
        ensures { result ≡ self.now.left + i }
    {
        self.left as u16 + i as u16
    }
}

// One row of a strip, with the sheet's bytes.
#[derive(Clone, Copy)]
pub struct Row<'a> {
    pub src: &'a [u8],
    pub strip: Strip,
    pub y: usize,
    pub ghost filled: { length src.now ≡ 4 * strip.width * strip.height },
    pub ghost within: { y < strip.height },
}

impl Row<'_> {
    ghost use Rattle.surface.specs.Inner.Rows.{alpha_in};

    // Alpha of the sheet's pixel in column x and row v.
    pub fn alpha(&self, x: usize, v: usize) -> u8
        requires { (x < self.now.strip.width) × (v < self.now.strip.height) }
        ensures { result ≡ alpha_in self.now x v }
    {
        self.src[4 * (v * self.strip.width + x) + 3]
    }

    // Alpha of the pixel above the one in column x; 0 where there is none.
    fn before(&self, x: usize) -> u8
        requires { x < self.now.strip.width }
        ensures { result ≡ Surface.before (alpha_in self.now x) self.now.y }
    {
        let alpha = self.alpha(x, self.behind());
        if self.y == 0 { 0 } else { alpha }
    }

    // Alpha of the pixel below the one in column x; 0 where there is none.
    fn after(&self, x: usize) -> u8
        requires { x < self.now.strip.width }
        ensures { result ≡ Surface.after self.now.strip.height (alpha_in self.now x) self.now.y }
    {
        let alpha = self.alpha(x, self.ahead());
        if self.y + 1 < self.strip.height {
            alpha
        } else {
            0
        }
    }

    // Alphas of the pixel in column x and its neighbours above and below, by the weights 1, 2, 1.
    #[tactic(auto, unfolding(crate::specs::Surface::weighted))]
    pub(crate) fn weighted(&self, x: usize) -> u16
        requires { x < self.now.strip.width }
        ensures is { result ≡ Surface.weighted self.now.strip.height (alpha_in self.now x) self.now.y }
        ensures small { result ≤ 1020 }
    {
        let own = u16::from(self.alpha(x, self.y));
        u16::from(self.before(x)) + 2 * own + u16::from(self.after(x))
    }

    // The row above, or the row itself where there is none.
    pub(crate) fn behind(&self) -> usize
        ensures { result ≡ Surface.behind self.now.y }
    {
        self.y.saturating_sub(1)
    }

    // The row below, or the row itself where there is none.
    pub(crate) fn ahead(&self) -> usize
        ensures { result ≡ Surface.ahead self.now.strip.height self.now.y }
    {
        (self.y + 1).min(self.strip.height - 1)
    }
}
