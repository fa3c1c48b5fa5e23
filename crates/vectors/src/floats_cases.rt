// The cases of floats.bin, five u32 each: the kind, the bits of x, y and z, and the Rust's answer, an i32 as its two's
// complement and a bool as 0 or 1.
use std::io::Read;
use std::rt::Files;
use std::{fs, io};
use stored::list;
use stored::tally::Tally;
use stored::words::Words;

// The bytes of a case, and of the cases that are read at once.
const CASE: usize = 20;

const BLOCK: usize = 4000;

// The function of each kind.
const NAMES: [&[u8]; 5] = [
    b"to_byte",
    b"round_to_i32",
    b"near_zero",
    b"unit_pair",
    b"unit_triple",
];

// Runs every case and prints a line for each kind, and one for the kinds that there are not, if any came.
pub fn replay(rt: &(impl Files + Print)) -> io::Result<()> {
    let mut file = fs::open(rt, "floats.bin")?;
    let tallies = run(&mut file)?;
    for (name, tally) in NAMES.iter().zip(tallies.iter()) {
        tally.print(rt, name)?;
    }
    let unknown = tallies[NAMES.len()];
    if unknown.cases > 0 {
        unknown.print(rt, b"unknown")?;
    }
    Ok(())
}

// A proved loop has to end, and nothing says that a file does: it counts up to a number that no run reaches.
fn run(file: &mut impl Read) -> io::Result<[Tally; 6]> {
    let mut tallies = [Tally::default(); 6];
    let mut block = [0u8; BLOCK];
    for _ in 0..u64::MAX {
        let count = list::fill(file, &mut block)?;
        count_cases(&block[..count], &mut tallies);
        if count < BLOCK {
            break;
        }
    }
    Ok(tallies)
}

// Counts each whole case in the tally of its kind, the last for the kinds that there are not.
fn count_cases(block: &[u8], tallies: &mut [Tally; 6]) {
    for case in block.chunks_exact(CASE) {
        let words = Words { list: case, at: 0 };
        let row = (words.word(0) as usize).min(NAMES.len());
        tallies[row] = tallies[row].counted(agrees(words));
    }
}

// Whether the function of the case's kind gives the stored answer.
fn agrees(case: Words) -> bool {
    answer(case.word(0), case.float(1), case.float(2), case.float(3)) == case.signed(4)
}

// What the function of the kind answers, a bool as 0 or 1; -1 for a kind that there is not.
fn answer(kind: u32, x: f32, y: f32, z: f32) -> i32 {
    match kind {
        0 => i32::from(floats::to_byte(x)),
        1 => floats::round_to_i32(x),
        2 => i32::from(floats::near_zero(x)),
        3 => i32::from(floats::unit_pair(x, y)),
        4 => i32::from(floats::unit_triple(x, y, z)),
        _ => -1,
    }
}
