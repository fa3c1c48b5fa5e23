// The component transfer filter, as resvg's component_transfer.rs, without Gamma.
#![tactic(auto)]

mod functions;
mod lookup;

ghost use Rattle.std.specs.Prelude.{◌≡◌};
ghost use Rattle.sheet.specs.Contract.{lent, Filtered};
ghost use Rattle.component_transfer.specs.ComponentTransfer.{entries_answer, function_answer, functions_answer, answer, tested, byte_of, transferred};

use pool::Numbers;
use sheet::Refusal;

// What to do with a channel. The entries of a Table or a Discrete stand in a lent pool; Linear takes a slope
// and an intercept. Identity and an empty table leave the channel alone.
#[derive(Clone, Copy)]
pub enum TransferFunction {
    Identity,
    Table(Numbers),
    Discrete(Numbers),
    Linear(f32, f32),
}

// The most entries of a table.
const ENTRY_LIMIT: u32 = 256;

fn test_entries(entries: Numbers, pool: &[f32]) -> Result<(), Refusal>
    ensures { result ≡ entries_answer entries pool.now }
{
    if ENTRY_LIMIT < entries.count {
        return Err(Refusal::Shape);
    }
    entries.test(pool)
}

// Tests 3, 4 and 5 of one channel's function.
#[tactic(auto, unfolding(crate::specs::ComponentTransfer::linear_answer))]
pub fn test_function(f: TransferFunction, pool: &[f32]) -> Result<(), Refusal>
    ensures { result ≡ function_answer f pool.now }
{
    match f {
        TransferFunction::Identity => Ok(()),
        TransferFunction::Table(entries) => test_entries(entries, pool),
        TransferFunction::Discrete(entries) => test_entries(entries, pool),
        TransferFunction::Linear(slope, intercept) => pool::test(&[slope, intercept]),
    }
}

// Of the answers to two functions, the refusal by the earlier test.
#[tactic(auto, unfolding(crate::specs::ComponentTransfer::together))]
fn together(p: Result<(), Refusal>, q: Result<(), Refusal>) -> Result<(), Refusal>
    ensures { result ≡ Rattle.component_transfer.specs.ComponentTransfer.together p q }
{
    let Err(first) = p else {
        return q;
    };
    let Err(second) = q else {
        return p;
    };
    if u8::from(first) <= u8::from(second) {
        p
    } else {
        q
    }
}

// Of the answers to the four channels' functions, the refusal by the earliest test.
pub fn of_all(
    r: Result<(), Refusal>,
    g: Result<(), Refusal>,
    b: Result<(), Refusal>,
    a: Result<(), Refusal>,
) -> Result<(), Refusal>
    ensures { result ≡ functions_answer r g b a }
{
    together(together(r, g), together(b, a))
}

// A channel's function, and the pool in which its numbers stand.
#[derive(Clone, Copy)]
pub struct Channel<'a> {
    pub function: TransferFunction,
    pub pool: &'a [f32],
}

// Tests 3, 4 and 5, each of all four channels.
pub fn test(r: Channel, g: Channel, b: Channel, a: Channel) -> Result<(), Refusal>
    ensures { result ≡ functions_answer (tested r.entry) (tested g.entry) (tested b.entry) (tested a.entry) }
{
    of_all(
        test_function(r.function, r.pool),
        test_function(g.function, g.pool),
        test_function(b.function, b.pool),
        test_function(a.function, a.pool),
    )
}

// Applies component transfer functions for each channel, in place.
//
// Pixels should have an unpremultiplied alpha.
pub fn apply(
    r: Channel,
    g: Channel,
    b: Channel,
    a: Channel,
    width: usize,
    height: usize,
    src: &mut [u8],
) -> Result<(), Refusal>
    ensures { Filtered (answer (tested r.entry) (tested g.entry) (tested b.entry) (tested a.entry) width height src.old) result (transferred (byte_of r.entry) (byte_of g.entry) (byte_of b.entry) (byte_of a.entry) src.old) (lent src.old src.new) }
{
    sheet::test(width, height, &[src.len()])?;
    test(r, g, b, a)?;
    lookup::transfer_all(r, g, b, a, src);
    Ok(())
}
