// Where a kernel's number falls on a side of the sheet.
ghost use Rattle.std.specs.Prelude.{◌≡◌, ◌+◌, ◌≤◌, ◌<◌};
ghost use Rattle.std.proofs.Math.IntN.{sub_ℕ};
ghost use Rattle.sheet.specs.Size.{side_limit};
ghost use Rattle.convolve_matrix.specs.ConvolveMatrix.{kernel_limit};
ghost use Rattle.convolve_matrix.specs.Edges as Edges;
ghost use Rattle.convolve_matrix.specs.Numbered.{edge_mode_by, edge_mode_number};
ghost use Rattle.convolve_matrix.specs.Inner.Rows.{Span, less_within};

use std::ops::Range;

// What stands for the pixels beyond the edges.
#[derive(Clone, Copy, Debug, PartialEq, Eq)]
pub enum EdgeMode {
    None,
    Duplicate,
    Wrap,
}

// A number that no edge mode has.
#[derive(Clone, Copy, Debug, PartialEq, Eq)]
pub struct UnknownEdgeMode(pub u32);

impl TryFrom<u32> for EdgeMode {
    type Error = UnknownEdgeMode;

    ghost try_from_gives = { λ number mode. mode ≡ edge_mode_by number };

    fn try_from(number: u32) -> Result<EdgeMode, UnknownEdgeMode> {
        match number {
            0 => Ok(EdgeMode::None),
            1 => Ok(EdgeMode::Duplicate),
            2 => Ok(EdgeMode::Wrap),
            _ => Err(UnknownEdgeMode(number)),
        }
    }
}

impl From<EdgeMode> for u32 {
    ghost from_gives = { λ mode number. number ≡ edge_mode_number mode };

    fn from(mode: EdgeMode) -> u32 {
        match mode {
            EdgeMode::None => 0,
            EdgeMode::Duplicate => 1,
            EdgeMode::Wrap => 2,
        }
    }
}

// A side of the sheet, of so many places. A place is meant by one that lies `target` past it.
#[derive(Clone, Copy)]
pub struct Side {
    pub mode: EdgeMode,
    pub target: usize,
    pub places: usize,
    pub ghost some: { 0 < places },
    pub ghost few: { places ≤ side_limit },
    pub ghost near: { target < kernel_limit },
}

// a - b, or 0, and n at the most. By `saturating_sub` it would be worked out anew wherever the result is used.
fn less_within(a: usize, b: usize, n: usize) -> usize
    ensures { result ≡ less_within a b n }
{
    if a < b { 0 } else { (a - b).min(n) }
}

impl Side {
    // The nearest place.
    fn nearest(self, at: usize) -> usize
        ensures { result ≡ Edges.nearest self.places (sub_ℕ at self.target) }
    {
        let last = self.places - 1;
        at.saturating_sub(self.target).min(last)
    }

    // The place that is met from the opposite edge.
    fn wrapped(self, at: usize) -> usize
        ensures { result ≡ Edges.remainder self.places (sub_ℕ at self.target) }
    {
        if self.target <= at {
            (at - self.target) % self.places
        } else {
            self.places - 1 - (self.target - at - 1) % self.places
        }
    }

    // Whether a place is read.
    pub fn is_read(self, at: usize) -> bool
        ensures { result ≡ Edges.is_read self.mode self.target self.places at }
    {
        match self.mode {
            EdgeMode::None => self.target <= at && at - self.target < self.places,
            EdgeMode::Duplicate | EdgeMode::Wrap => true,
        }
    }

    // Which of the places is read.
    pub fn place(self, at: usize) -> usize
        ensures value { result ≡ Edges.place self.mode self.target self.places at }
        ensures inside { result < self.places }
    {
        match self.mode {
            EdgeMode::None | EdgeMode::Duplicate => self.nearest(at),
            EdgeMode::Wrap => self.wrapped(at),
        }
    }

    // Of the n places from `at` on, counted from it, the side's own.
    pub fn own(self, at: usize, n: usize) -> Range<usize>
        ensures start { result.start ≡ less_within self.target at n }
        ensures end { result.end ≡ less_within (self.places + self.target) at n }
    {
        let from = less_within(self.target, at, n);
        let to = less_within(self.places + self.target, at, n);
        from..to
    }

    // Of the n places from `at` on, counted from it, those that are read.
    pub fn span(self, at: usize, n: usize) -> Range<usize>
        ensures { Span self.mode self.target self.places n at result.start result.end }
    {
        match self.mode {
            EdgeMode::None => self.own(at, n),
            EdgeMode::Duplicate | EdgeMode::Wrap => 0..n,
        }
    }
}
