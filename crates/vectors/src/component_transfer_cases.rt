// Component transfer: for red, green, blue and alpha the kind, the count of its numbers and the numbers; the sheet is src.
ghost use Rattle.std.specs.Prelude.{◌≡◌, ◌+◌, ◌<◌, ◌≤◌};

use crate::called::{Called, NotCalled};
use crate::cases::Case;
use component_transfer::{Channel, TransferFunction};
use pool::Numbers;

// No fewer than the numbers of a channel in the list: a larger count cannot be right, and the parameters then are not as many as
// it says.
const MOST: u32 = 512;

// A channel's kind, and its numbers among the parameters.
#[derive(Clone, Copy)]
struct Entry {
    kind: u32,
    numbers: Numbers,
    next: u32,
}

// The channel whose parameters begin with parameter i.
fn entry_at(case: Case, i: u32) -> Entry
    requires { i ≤ 1542 }
    ensures { (result.numbers.start ≡ i + 2) × (result.next ≤ i + 514) }
{
    let kind = case.parameters.word(i as usize);
    let count = case.parameters.word(i as usize + 1).min(MOST);
    let start = i + 2;
    Entry {
        kind,
        numbers: Numbers { start, count },
        next: start + count,
    }
}

// The function, where an enum's value says it: its kind names a case, and a Linear has two numbers.
fn function(case: Case, entry: Entry) -> Result<TransferFunction, NotCalled>
    requires { entry.numbers.start < 4095 }
{
    let numbers = entry.numbers;
    match entry.kind {
        0 => Ok(TransferFunction::Identity),
        1 => Ok(TransferFunction::Table(numbers)),
        2 => Ok(TransferFunction::Discrete(numbers)),
        3 if numbers.count == 2 => {
            let at = numbers.start as usize;
            let slope = case.parameters.float(at);
            let intercept = case.parameters.float(at + 1);
            Ok(TransferFunction::Linear(slope, intercept))
        }
        _ => Err(NotCalled::Unnamed),
    }
}

// The pool is all of the parameters.
pub fn call(case: Case, src: &mut [u8]) -> Called {
    let r = entry_at(case, 0);
    let g = entry_at(case, r.next);
    let b = entry_at(case, g.next);
    let a = entry_at(case, b.next);
    case.parameters_are(a.next)?;
    let mut numbers = [0.0f32; 2056];
    case.parameters.floats(&mut numbers);
    let pool = &numbers[..];
    Ok(component_transfer::apply(
        Channel {
            function: function(case, r)?,
            pool,
        },
        Channel {
            function: function(case, g)?,
            pool,
        },
        Channel {
            function: function(case, b)?,
            pool,
        },
        Channel {
            function: function(case, a)?,
            pool,
        },
        case.width,
        case.height,
        src,
    ))
}
