// Component transfer, with each channel's function as a number and its values.
ghost use Rattle.std.specs.Prelude.{◌≡◌};
ghost use Rattle.sheet.specs.Contract.{lent, Filtered};
ghost use Rattle.component_transfer.specs.ComponentTransfer.{answer, transferred};
ghost use Rattle.nuprikhen.specs.Numbers.{linear_of, function_of, Transferred};
ghost use Rattle.nuprikhen.specs.Inner.Transfers.{tested, byte_of};

use crate::numbers::all_of;
use crate::nup_answer;
use component_transfer::{Channel, TransferFunction};
use sheet::Refusal;

fn linear_of(values: &[f32]) -> TransferFunction
    ensures { result ≡ linear_of values.now }
{
    if values.len() == 2 {
        return TransferFunction::Linear(values[0], values[1]);
    }
    TransferFunction::Identity
}

// A channel's function as C gives it: a number and the values.
#[derive(Clone, Copy)]
struct Numbered<'a> {
    kind: u8,
    values: &'a [f32],
}

impl<'a> Numbered<'a> {
    // The function of the number.
    fn function(self) -> TransferFunction
        ensures { result ≡ function_of self.entry.kind self.entry.values.now }
    {
        match self.kind {
            0 => TransferFunction::Identity,
            1 => TransferFunction::Table(all_of(self.values)),
            2 => TransferFunction::Discrete(all_of(self.values)),
            _ => linear_of(self.values),
        }
    }

    // Tests 3, 4 and 5 of the function.
    #[tactic(auto, using(crate::proofs::Functions::not_of_two))]
    fn tested(self) -> Result<(), Refusal>
        ensures { result ≡ tested self.entry }
    {
        if self.kind < 3 {
            return component_transfer::test_function(self.function(), self.values);
        }
        if self.kind != 3 {
            return Err(Refusal::Range);
        }
        if self.values.len() != 2 {
            return Err(Refusal::Shape);
        }
        component_transfer::test_function(linear_of(self.values), self.values)
    }
}

// Component transfer by the functions' numbers.
fn apply_numbered(
    r: Numbered,
    g: Numbered,
    b: Numbered,
    a: Numbered,
    width: usize,
    height: usize,
    src: &mut [u8],
) -> Result<(), Refusal>
    ensures { Filtered (answer (tested r.entry) (tested g.entry) (tested b.entry) (tested a.entry) width height src.old) result (transferred (byte_of r.entry) (byte_of g.entry) (byte_of b.entry) (byte_of a.entry) src.old) (lent src.old src.new) }
{
    sheet::test(width, height, &[src.len()])?;
    component_transfer::of_all(r.tested(), g.tested(), b.tested(), a.tested())?;
    component_transfer::apply(
        Channel {
            function: r.function(),
            pool: r.values,
        },
        Channel {
            function: g.function(),
            pool: g.values,
        },
        Channel {
            function: b.function(),
            pool: b.values,
        },
        Channel {
            function: a.function(),
            pool: a.values,
        },
        width,
        height,
        src,
    )
}

// A function for each channel of straight colour, in place: 0 leaves the channel alone, 1 is a table, 2 is discrete and
// 3 is linear, of a slope and an intercept.
#[unsafe(no_mangle)]
pub extern "C" fn nup_component_transfer(
    width: u32,
    height: u32,
    red: u8,
    r: &[f32],
    green: u8,
    g: &[f32],
    blue: u8,
    b: &[f32],
    alpha: u8,
    a: &[f32],
    src: &mut [u8],
) -> nup_answer
    ensures { Transferred red r.now green g.now blue b.now alpha a.now width height result (lent src.old src.new) }
{
    nup_answer::from(apply_numbered(
        Numbered {
            kind: red,
            values: r,
        },
        Numbered {
            kind: green,
            values: g,
        },
        Numbered {
            kind: blue,
            values: b,
        },
        Numbered {
            kind: alpha,
            values: a,
        },
        width as usize,
        height as usize,
        src,
    ))
}
