// Every pixel of a sheet: strip by strip, and each strip row by row.
ghost use Rattle.std.specs.Prelude.{◌≡◌, ◌*◌, ◌≤◌, length};
ghost use Rattle.sheet.specs.Size.{Sized};
ghost use Rattle.sheet.specs.Contract.{lent, Filtered};
ghost use Rattle.sheet.specs.Inner.Strips.{strip_limit};
ghost use Rattle.sheet.specs.Tabulate.{tabulate};
ghost use Rattle.lighting.specs.Lighting.{lit_at, small, answer, lit};
ghost use Rattle.lighting.specs.Inner.Rows.{IsSheetOf, StripDone};

use crate::pixel::Lighting;
use crate::rows;
use crate::rows::Work;
use sheet::{Refusal, STRIP};
use surface::{Row, Strip};

// Lights every row of a strip.
fn light_rows(lighting: Lighting, strip: Strip, src: &[u8], work: &mut Work, dest: &mut [u8])
    requires narrow { strip.count ≤ strip_limit }
    requires source { IsSheetOf strip src.now }
    requires sheet { IsSheetOf strip dest.old }
    requires strip_done { StripDone lighting strip src.now 0 dest.old }
    ensures same { length dest.new ≡ length dest.old }
    ensures strip_done { StripDone lighting strip src.now strip.height dest.new }
{
    let rays = lighting.rays();
    for y in 0..strip.height {
        let row = Row { src, strip, y };
        rows::light_row(lighting, rays, &row, work, dest);
    }
}

// Lights every pixel.
fn light_all(lighting: Lighting, width: usize, height: usize, src: &[u8], dest: &mut [u8])
    requires sized { Sized width height }
    requires src_len { length src.now ≡ 4 * width * height }
    requires dest_len { length dest.old ≡ 4 * width * height }
    ensures { dest.new ≡ tabulate (4 * width * height) (lit_at lighting width height src.now) }
{
    let mut work = Work::new();
    for k in 0..width.div_ceil(STRIP) {
        let left = STRIP * k;
        let count = sheet::strip_from(width, left);
        let strip = Strip {
            width,
            height,
            left,
            count,
        };
        light_rows(lighting, strip, src, &mut work, dest);
    }
}

// Whether a sheet is below 3 x 3.
#[tactic(auto, unfolding(crate::specs::Lighting::small))]
fn is_small(width: usize, height: usize) -> bool
    ensures { result ≡ small width height }
{
    width < 3 || height < 3
}

// Lights a sheet; one below 3 x 3 is only cleared.
#[tactic(auto, unfolding(crate::specs::Lighting::lit))]
fn apply(lighting: Lighting, width: usize, height: usize, src: &[u8], dest: &mut [u8])
    requires sized { Sized width height }
    requires src_len { length src.now ≡ 4 * width * height }
    requires dest_len { length dest.old ≡ 4 * width * height }
    ensures { dest.new ≡ lit lighting width height src.now }
{
    if is_small(width, height) {
        sheet::clear(dest);
    } else {
        light_all(lighting, width, height, src, dest);
    }
}

// Tests the sheets, then lights them by numbers whose tests answered `tested`.
pub fn filter(
    tested: Result<(), Refusal>,
    lighting: Lighting,
    width: usize,
    height: usize,
    src: &[u8],
    dest: &mut [u8],
) -> Result<(), Refusal>
    ensures { Filtered (answer tested width height src.now dest.old) result (lit lighting width height src.now) (lent dest.old dest.new) }
{
    sheet::test(width, height, &[src.len(), dest.len()])?;
    tested?;
    apply(lighting, width, height, src, dest);
    Ok(())
}
