// The engine: bytes merged with the bytes of a neighbour, and neighbours taken in until the radius is reached.
ghost use Rattle.std.specs.Prelude.{◌≡◌, ◌+◌, ◌*◌, ◌≤◌, ◌<◌, length};
ghost use Rattle.sheet.specs.Size.{Sized};
ghost use Rattle.sheet.specs.Tabulate.{zeros};
ghost use Rattle.morphology.specs.Morphology.{spread_over};
ghost use Rattle.morphology.specs.Inner.Lines.{Merged, Lines, Spread, Rows};

use crate::operator::MorphologyOperator;

// Each of n bytes of `into`, from `at` on, becomes the more extreme of itself and the byte of `from` as far past `other`.
fn merge(
    operator: MorphologyOperator,
    from: &[u8],
    other: usize,
    into: &mut [u8],
    at: usize,
    n: usize,
)
    requires n_in_bounds { other + n ≤ length from.now }
    requires n_in_bounds_2 { at + n ≤ length into.old }
    ensures { Merged operator from.now other into.old at n into.new }
{
    for i in 0..n {
        into[at + i] = operator.more_extreme(into[at + i], from[other + i]);
    }
}

// The bytes from `first` on are lines of `count` places, `step` bytes apart. Each byte of `into` there, which is as in
// `from`, becomes the extremum of its line within `radius` places of it.
pub fn spread(
    operator: MorphologyOperator,
    radius: usize,
    step: usize,
    count: usize,
    first: usize,
    from: &[u8],
    into: &mut [u8],
)
    requires { Lines radius step count first from.now into.old }
    ensures { Spread operator radius step count first from.now into.old into.new }
{
    let total = step * count;
    for reached in 0..radius {
        let shift = step * (reached + 1);
        let n = total - shift;
        merge(operator, from, first + shift, into, first, n);
        merge(operator, from, first, into, first + shift, n);
    }
}

// `scratch`, which is as `src`, takes the extremum of each row within `radius`.
fn spread_rows(
    operator: MorphologyOperator,
    radius: usize,
    width: usize,
    height: usize,
    src: &[u8],
    scratch: &mut [u8],
)
    requires sized { Sized width height × (radius < width) }
    requires src_len { length src.now ≡ 4 * width * height }
    requires scratch_value { scratch.old ≡ src.now }
    ensures { Rows operator radius width height height src.now scratch.new }
{
    let line = 4 * width;
    for y in 0..height {
        spread(operator, radius, 4, width, line * y, src, scratch);
    }
}

// `src` takes the extremum of each pixel's window: first over the columns of each row, then over the rows.
pub fn spread_sheet(
    operator: MorphologyOperator,
    rx: usize,
    ry: usize,
    width: usize,
    height: usize,
    src: &mut [u8],
    scratch: &mut [u8],
)
    requires sized { Sized width height × (rx < width) × (ry < height) }
    requires src_len { length src.old ≡ 4 * width * height }
    requires scratch_len { length scratch.old ≡ 4 * width * height }
    ensures src_after { src.new ≡ spread_over operator rx ry width height src.old }
    ensures scratch_after { scratch.new ≡ zeros (length scratch.old) }
{
    sheet::copy(&src[..], scratch);
    spread_rows(operator, rx, width, height, &src[..], scratch);
    sheet::copy(&scratch[..], src);
    spread(operator, ry, 4 * width, height, 0, &scratch[..], src);
    sheet::clear(scratch);
}
