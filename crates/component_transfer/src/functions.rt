// Each transfer function of a channel's byte.
ghost use Rattle.sheet.specs.Answer.{Done};
ghost use Rattle.std.specs.Prelude.{◌≡◌, false, ◌≤◌, ◌<◌, length};
ghost use Rattle.component_transfer.specs.Functions as Functions;
ghost use Rattle.component_transfer.specs.Inner.Index as Index;
ghost use Rattle.component_transfer.specs.ComponentTransfer as ComponentTransfer;

use crate::TransferFunction;

// Which entry a channel's number falls on: c times n, rounded down, and most at the most.
fn index(c: f32, n: usize, most: usize) -> usize
    requires { (n ≤ 256) × (most ≤ 255) }
    ensures { result ≡ Index.index c n most }
{
    most.min(floats::floor_to_byte(c * (n as f32)) as usize)
}

// Between two entries of a table.
fn table(values: &[f32], c: u8) -> f32
    requires { (0 < length values.now) × (length values.now ≤ 256) }
    ensures { result ≡ Functions.table values.now c }
{
    let x = floats::normalized(c);
    let n = values.len() - 1;
    let k = index(x, n, n);
    if k == n {
        values[k]
    } else {
        let vk = values[k];
        let vk1 = values[k + 1];
        let at = k as f32;
        let last = n as f32;
        vk + (x - at / last) * last * (vk1 - vk)
    }
}

// One of the entries.
fn discrete(values: &[f32], c: u8) -> f32
    requires { (0 < length values.now) × (length values.now ≤ 256) }
    ensures { result ≡ Functions.discrete values.now c }
{
    let n = values.len();
    let k = index(floats::normalized(c), n, n - 1);
    values[k]
}

fn linear(slope: f32, intercept: f32, c: u8) -> f32
    ensures { result ≡ Functions.linear slope intercept c }
{
    slope * floats::normalized(c) + intercept
}

// Whether a function leaves its channel alone.
fn is_dummy(f: TransferFunction) -> bool
    ensures { result ≡ ComponentTransfer.is_dummy f }
{
    match f {
        TransferFunction::Identity => true,
        TransferFunction::Table(entries) => entries.count == 0,
        TransferFunction::Discrete(entries) => entries.count == 0,
        TransferFunction::Linear(_, _) => false,
    }
}

// A channel's byte by its function, before it is brought to 0 to 1.
fn number_of(f: TransferFunction, pool: &[f32], c: u8) -> f32
    requires pool_value { ComponentTransfer.function_answer f pool.now ≡ Done }
    requires f_value { ComponentTransfer.is_dummy f ≡ false }
    ensures { result ≡ ComponentTransfer.transfer_value f pool.now c }
{
    match f {
        TransferFunction::Identity => floats::normalized(c),
        TransferFunction::Table(entries) => table(entries.part(pool), c),
        TransferFunction::Discrete(entries) => discrete(entries.part(pool), c),
        TransferFunction::Linear(slope, intercept) => linear(slope, intercept, c),
    }
}

// A channel's byte by its function.
pub fn transfer(f: TransferFunction, pool: &[f32], c: u8) -> u8
    requires { ComponentTransfer.function_answer f pool.now ≡ Done }
    ensures { result ≡ ComponentTransfer.transfer f pool.now c }
{
    if is_dummy(f) {
        return c;
    }
    floats::from_normalized(number_of(f, pool, c))
}
