// Each channel's function worked out once for every byte, and looked up pixel by pixel.
ghost use Rattle.std.specs.Prelude.{◌≡◌, ◌%◌, length};
ghost use Rattle.sheet.specs.Answer.{Done};
ghost use Rattle.sheet.specs.Tabulate.{tabulate};
ghost use Rattle.component_transfer.specs.ComponentTransfer.{function_answer, transfer, transferred, tested, byte_of};
ghost use Rattle.component_transfer.specs.Inner.Lookup.{LookedUp};

use crate::{Channel, TransferFunction, functions};
use sheet::pixel::{Straight, map_pixels};

// A function's byte for every byte.
fn every_byte(f: TransferFunction, pool: &[f32]) -> [u8; 256]
    requires { function_answer f pool.now ≡ Done }
    ensures { result ≡ tabulate 256 (transfer f pool.now) }
{
    let mut bytes = [0u8; 256];
    for i in 0..256 {
        bytes[i] = functions::transfer(f, pool, i as u8);
    }
    bytes
}

// A pixel whose channels are looked up, each in its own bytes.
fn looked_up(
    r: &[u8; 256],
    g: &[u8; 256],
    b: &[u8; 256],
    a: &[u8; 256],
    pixel: Straight,
) -> Straight
    ensures { LookedUp r.now g.now b.now a.now pixel.number result.number }
{
    Straight::of(
        r[usize::from(pixel.red())],
        g[usize::from(pixel.green())],
        b[usize::from(pixel.blue())],
        a[usize::from(pixel.alpha())],
    )
}

// Transfers every pixel by functions that passed the tests.
pub fn transfer_all(r: Channel, g: Channel, b: Channel, a: Channel, src: &mut [u8])
    requires passed { (tested r ≡ Done) × (tested g ≡ Done) × (tested b ≡ Done) × (tested a ≡ Done) }
    requires src_len { length src.old % 4 ≡ 0 }
    ensures { src.new ≡ transferred (byte_of r.entry) (byte_of g.entry) (byte_of b.entry) (byte_of a.entry) src.old }
{
    let red = every_byte(r.function, r.pool);
    let green = every_byte(g.function, g.pool);
    let blue = every_byte(b.function, b.pool);
    let alpha = every_byte(a.function, a.pool);
    map_pixels(src, |p| looked_up(&red, &green, &blue, &alpha, p));
}
