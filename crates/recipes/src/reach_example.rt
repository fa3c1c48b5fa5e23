// docs/LAW.md's example of reach, shown by runs: dilate of radius 1 by 0 twice, on one row of five pixels.
ghost use Rattle.std.specs.Prelude.{◌<◌};

use filter::{Kind, Recipe, STEP_LIMIT, Step, Work};
use morphology::MorphologyOperator;
use sheet::Size;
use std::io;

// Prints the source bytes that byte 3 of the result, pixel 0's alpha, changes with.
pub fn show(rt: &impl Print) -> io::Result<()> {
    print!(rt; "reach: dilate twice, result byte 3 changes with source bytes")?;
    for at in 0..20 {
        if changes(at, 0) || changes(at, 100) {
            print!(rt; " {at}")?;
        }
    }
    println!(rt;)
}

// Whether some value of source byte `at` changes the result where all other bytes are `ground`.
fn changes(at: usize, ground: u8) -> bool
    requires { at < 20 }
{
    let mut source = [ground; 20];
    let before = result(&source, 0);
    for value in (5..=255).step_by(5) {
        source[at] = value;
        if result(&source, value) != before {
            return true;
        }
    }
    false
}

// Byte 3 of the result, where the working slots and scratch are full of `junk` before the run.
fn result(source: &[u8], junk: u8) -> u8 {
    let mut slot1 = [junk; 20];
    let mut slot2 = [junk; 20];
    let mut slot3 = [junk; 20];
    let mut scratch = [junk; 20];
    let _ = filter::run(
        dilate_twice(),
        Kind::Premultiplied,
        &[],
        Size {
            width: 5,
            height: 1,
        },
        source,
        &mut slot1,
        &mut slot2,
        &mut slot3,
        &mut scratch,
    );
    slot2[3]
}

// The source to slot 1, and slot 1 to slot 2.
fn dilate_twice() -> Recipe {
    let mut steps = [dilate(1, 2); STEP_LIMIT];
    steps[0] = dilate(0, 1);
    Recipe { steps, count: 2 }
}

fn dilate(input: u32, output: u32) -> Step {
    Step::new(
        Work::Morphology(input, MorphologyOperator::Dilate, 1.0, 0.0),
        output,
    )
}
