// Sheets: lent byte slices of 4 x width x height bytes, r, g, b, a, row by row.
#![tactic(auto)]

pub mod pixel;

ghost use Rattle.std.specs.Prelude.{◌≡◌, cond, length};
ghost use Rattle.sheet.specs.Answer.{Done, refusal, refusal_number};
ghost use Rattle.sheet.specs.Size.{is_side, sheets_answer};
ghost use Rattle.sheet.specs.Tabulate.{zeros, copied};
ghost use Rattle.sheet.specs.Inner.Strips.{strip_from};

// Why a call is turned away: docs/LAW.md's numbers 1 to 8, in order.
#[derive(Clone, Copy, Debug, PartialEq, Eq)]
pub enum Refusal {
    Size,
    Length,
    Shape,
    NotFinite,
    Range,
    Steps,
    Slot,
    Kind,
}

// docs/LAW.md's number of a refusal.
impl From<Refusal> for u8 {
    ghost from_gives = { λ refusal number. number ≡ refusal_number refusal };

    fn from(refusal: Refusal) -> u8 {
        match refusal {
            Refusal::Size => 1,
            Refusal::Length => 2,
            Refusal::Shape => 3,
            Refusal::NotFinite => 4,
            Refusal::Range => 5,
            Refusal::Steps => 6,
            Refusal::Slot => 7,
            Refusal::Kind => 8,
        }
    }
}

// The sides of a sheet, in pixels.
#[derive(Clone, Copy, Debug, PartialEq, Eq)]
pub struct Size {
    pub width: usize,
    pub height: usize,
}

// The longest side of a sheet.
pub const SIDE_LIMIT: usize = 4096;

// The most columns of a strip: what is worked out for each column has work space for so many, however wide the sheet is.
pub const STRIP: usize = 512;

// Test 1 of a width or a height.
fn test_side(n: usize) -> Result<(), Refusal>
    ensures { result ≡ cond (is_side n) Done (refusal 1) }
{
    if 0 < n && n <= SIDE_LIMIT {
        Ok(())
    } else {
        Err(Refusal::Size)
    }
}

// Tests 1 and 2 of sheets of these lengths.
pub fn test(width: usize, height: usize, lengths: &[usize]) -> Result<(), Refusal>
    ensures { result ≡ sheets_answer width height lengths.now }
{
    test_side(width)?;
    test_side(height)?;
    let area = 4 * width * height;
    if lengths.iter().all(|&length| length == area) {
        Ok(())
    } else {
        Err(Refusal::Length)
    }
}

// How many columns the strip from column x on has.
pub fn strip_from(width: usize, x: usize) -> usize
    ensures { result ≡ strip_from width x }
{
    STRIP.min(width.saturating_sub(x))
}

// dst takes src's bytes, as many as both have; the rest of dst stays.
pub fn copy(src: &[u8], dst: &mut [u8])
    ensures { dst.new ≡ copied src.now dst.old }
{
    let n = src.len().min(dst.len());
    // The library's `copy_from_slice` would need `memmove` of whoever links the archive.
    for i in 0..n {
        dst[i] = src[i];
    }
}

// Every byte of dst becomes 0.
pub fn clear(dst: &mut [u8])
    ensures { dst.new ≡ zeros (length dst.old) }
{
    dst.fill(0);
}
