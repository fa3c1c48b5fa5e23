// A stored recipe: width and height; its kind, one byte (0 straight, 1 premultiplied); the message's length and the message; five
// times a sheet's length with its bytes, for slots 0 to 3 and scratch; the answer's number and step, 1 where the result reaches
// slot 0 and else 0, and the answer's offset; and the five sheets' bytes after the run. Numbers but the kind are little-endian
// u32 words, at any place; a sheet's bytes are padded to a whole number of words.
ghost use Rattle.std.specs.Prelude.{◌<◌};

use filter::Kind;
use sheet::Size;
use stored::sheets::Sheet;
use stored::words::Words;

// A run: its size and kind, its message and its sheets.
#[derive(Clone, Copy)]
pub struct Run<'a> {
    pub size: Size,
    pub kind: Kind,
    pub message: &'a [u8],
    pub sheets: Sheets<'a>,
}

// The five sheets, and the answer, which stands between their bytes before the run and after it.
#[derive(Clone, Copy)]
pub struct Sheets<'a> {
    pub source: Sheet<'a>,
    pub slot1: Sheet<'a>,
    pub slot2: Sheet<'a>,
    pub slot3: Sheet<'a>,
    pub scratch: Sheet<'a>,
    pub answer: Words<'a>,
}

// The run that `words` begin with. What stands past the end of the list counts as zeros.
pub fn read<'a>(words: Words<'a>) -> Run<'a>
    requires { words.at < 4294967296 }
    ensures { words.entry.at < result.sheets.scratch.rest.at }
{
    let list = words.list;
    let at = words.at + 13;
    let length = Words { list, at: at - 4 }.word(0) as usize;
    Run {
        size: Size {
            width: words.word(0) as usize,
            height: words.word(1) as usize,
        },
        kind: Kind::try_from(words.word(2) % 256).unwrap_or(Kind::Premultiplied),
        message: part(list, at, length),
        sheets: sheets_in(Words {
            list,
            at: at + length,
        }),
    }
}

// The bytes of a message at `at`; fewer where the list ends before them.
fn part(list: &[u8], at: usize, length: usize) -> &[u8] {
    let rest = list.get(at..).unwrap_or(&[]);
    rest.get(..length).unwrap_or(rest)
}

// The sheets that `words` begin with.
fn sheets_in<'a>(words: Words<'a>) -> Sheets<'a>
    requires { words.at < 549755813888 }
    ensures { words.entry.at < result.scratch.rest.at }
{
    let a = words.sheet(true);
    let b = a.rest.sheet(true);
    let c = b.rest.sheet(true);
    let d = c.rest.sheet(true);
    let e = d.rest.sheet(true);
    let answer = e.rest;
    let source = a.left(answer.skip(4));
    let slot1 = b.left(source.rest);
    let slot2 = c.left(slot1.rest);
    let slot3 = d.left(slot2.rest);
    let scratch = e.left(slot3.rest);
    Sheets {
        source,
        slot1,
        slot2,
        slot3,
        scratch,
        answer,
    }
}
