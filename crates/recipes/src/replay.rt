// Reads and runs the stored list of recipes, which are messages, and compares each answer, the yes or no on slot 0 and every lent
// byte with the stored ones.
ghost use Rattle.std.specs.Prelude.{◌≤◌, length};

use crate::runs;
use crate::runs::Run;
use filter::{Recipe, Refused};
use message::MessageError;
use std::io;
use std::rt::Files;
use stored::list::LIST;
use stored::tally::Tally;
use stored::words::Words;
use stored::{answers, list};

// The most bytes of a sheet, and the most numbers of a message that is taken, in the list.
const SHEET: usize = 256;

const POOL: usize = 4096;

// Runs the recipes of the file, and prints how many there are and how many differ.
pub fn replay(rt: &(impl Files + Print)) -> io::Result<()> {
    let mut bytes = [0u8; LIST];
    let end = list::read(rt, b"messages.bin", &mut bytes)?;
    run(&bytes[..end]).whole(end < LIST).print(rt, b"recipes")?;
    Ok(())
}

fn run(list: &[u8]) -> Tally
    requires { length list.now ≤ 262144 }
{
    let mut tally = Tally::default();
    let mut words = Words { list, at: 0 };
    while words.at < list.len() {
        let run = runs::read(words);
        tally = tally.counted(agrees(run));
        words = run.sheets.scratch.rest;
    }
    tally
}

// Whether the run does as it is stored, on copies of its sheets. What the buffers cannot hold differs.
fn agrees(run: Run) -> bool {
    let mut pool = [0.0f32; POOL];
    let read = message::read(run.message, &mut pool);
    let mut source = [0u8; SHEET];
    let mut slot1 = [0u8; SHEET];
    let mut slot2 = [0u8; SHEET];
    let mut slot3 = [0u8; SHEET];
    let mut scratch = [0u8; SHEET];
    let source = run.sheets.source.load(&mut source);
    let slot1 = run.sheets.slot1.load(&mut slot1);
    let slot2 = run.sheets.slot2.load(&mut slot2);
    let slot3 = run.sheets.slot3.load(&mut slot3);
    let scratch = run.sheets.scratch.load(&mut scratch);
    let told = match read {
        Ok(recipe) => does(run, recipe, &pool, source, slot1, slot2, slot3, scratch),
        Err(error) => is_refusal(run.sheets.answer, error),
    };
    told && run.sheets.source.is_left(source)
        && run.sheets.slot1.is_left(slot1)
        && run.sheets.slot2.is_left(slot2)
        && run.sheets.slot3.is_left(slot3)
        && run.sheets.scratch.is_left(scratch)
}

// Whether the message's refusal is the stored one, with its offset and no reach.
fn is_refusal(stored: Words, error: MessageError) -> bool {
    answers::is_stored(stored, error.number(), error.step())
        && stored.word(2) == 0
        && u64::from(stored.word(3)) == error.offset()
}

// Whether the answers of the run and of the yes or no are the stored ones.
fn does(
    run: Run,
    recipe: Recipe,
    pool: &[f32],
    source: &[u8],
    slot1: &mut [u8],
    slot2: &mut [u8],
    slot3: &mut [u8],
    scratch: &mut [u8],
) -> bool {
    let kind = run.kind;
    let size = run.size;
    let reaches = filter::reaches(
        recipe, kind, pool, size, source, slot1, slot2, slot3, scratch,
    );
    let answer = filter::run(
        recipe, kind, pool, size, source, slot1, slot2, slot3, scratch,
    );
    are_told(run.sheets.answer, reaches, answer)
}

// Whether the answers of the yes or no and of the run, and the yes or no, are the stored ones, which have no offset.
fn are_told(stored: Words, reaches: Result<bool, Refused>, answer: Result<(), Refused>) -> bool {
    is_stored(stored, reaches.map(|_| ()))
        && is_stored(stored, answer)
        && stored.word(2) == u32::from(reaches.unwrap_or(false))
        && stored.word(3) == 0
}

// Whether the answer is the stored one.
fn is_stored(stored: Words, answer: Result<(), Refused>) -> bool {
    match answer {
        Ok(()) => answers::is_stored(stored, 0, 0),
        Err(Refused { refusal, step }) => answers::is_stored(stored, u8::from(refusal), step),
    }
}
