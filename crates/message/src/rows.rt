// Rows of numbers: as many as a step has before, between or after its lists.
ghost use Rattle.std.specs.Prelude.{◌≡◌};
ghost use Rattle.message.specs.Inner.Reading.{RowRead};

use number::{Reader, Wrong};

// The bound of a number that may be any.
pub const ANY: u32 = 4294967295;

// Takes a row of numbers, each at most its bound.
pub fn row<const N: usize>(reader: &mut Reader, most: [u32; N]) -> Result<[u32; N], Wrong>
    ensures same { reader.new.message ≡ reader.old.message }
    ensures row { RowRead most.entry reader.old reader.new result }
{
    let mut words = most;
    for i in 0..N {
        let at = reader.at;
        let n = reader.number()?;
        if most[i] < n {
            return Err(Wrong { at });
        }
        words[i] = n;
    }
    Ok(words)
}
