// A stored case of a primitive, in little-endian u32 words: code, width, height, P, the P parameter words, L, and L times
// a sheet's length with its bytes; then the answer's number and step, and the L sheets' bytes after the call. Bytes are
// padded to a whole number of words.
ghost use Rattle.std.specs.Prelude.{◌<◌};

use crate::called::NotCalled;
use stored::sheets::Sheet;
use stored::words::Words;

// A case: what stands in its words, and its parameters.
#[derive(Clone, Copy)]
pub struct Case<'a> {
    pub code: u32,
    pub width: usize,
    pub height: usize,
    pub parameters: Words<'a>,
    pub parameter_count: u32,
    pub sheet_count: u32,
    pub sheets: Sheets<'a>,
}

// Up to three sheets, of which those that the case lacks are empty, and the answer, which stands between their bytes before the
// call and after it.
#[derive(Clone, Copy)]
pub struct Sheets<'a> {
    pub first: Sheet<'a>,
    pub second: Sheet<'a>,
    pub third: Sheet<'a>,
    pub answer: Words<'a>,
}

// The case that `words` begin with. What stands past the end of the list counts as zeros.
pub fn read<'a>(words: Words<'a>) -> Case<'a>
    requires { words.at < 4294967296 }
    ensures { words.entry.at < result.sheets.third.rest.at }
{
    let parameters = words.skip(4);
    let parameter_count = words.word(3);
    let counted = parameters.skip(parameter_count as usize);
    let sheet_count = counted.word(0);
    Case {
        code: words.word(0),
        width: words.word(1) as usize,
        height: words.word(2) as usize,
        parameters,
        parameter_count,
        sheet_count,
        sheets: sheets_in(counted.skip(1), sheet_count),
    }
}

// The sheets that `words` begin with.
fn sheets_in<'a>(words: Words<'a>, count: u32) -> Sheets<'a>
    requires { words.at < 549755813888 }
    ensures { words.entry.at < result.third.rest.at }
{
    let a = words.sheet(0 < count);
    let b = a.rest.sheet(1 < count);
    let c = b.rest.sheet(2 < count);
    let answer = c.rest;
    let first = a.left(answer.skip(2));
    let second = b.left(first.rest);
    let third = c.left(second.rest);
    Sheets {
        first,
        second,
        third,
        answer,
    }
}

impl<'a> Case<'a> {
    // That there are so many parameters.
    pub fn parameters_are(self, count: u32) -> Result<(), NotCalled> {
        if self.parameter_count == count {
            Ok(())
        } else {
            Err(NotCalled::Misread)
        }
    }

    // Parameter i, a number that names a case up to `last`.
    pub fn choice(self, i: usize, last: u32) -> Result<u32, NotCalled>
        requires { i < 4096 }
    {
        let number = self.parameters.word(i);
        if number <= last {
            Ok(number)
        } else {
            Err(NotCalled::Unnamed)
        }
    }
}
