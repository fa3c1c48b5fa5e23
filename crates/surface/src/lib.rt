// How the surface leans at a pixel, by the alphas round it.
#![tactic(auto)]

mod columns;
mod gather;
mod strip;

ghost use Rattle.std.specs.Prelude.{◌≡◌, ◌+◌, ◌*◌, ◌≤◌, ◌<◌, length, get_or};
ghost use Rattle.std.proofs.Math.IntN.{sub_ℕ};
ghost use Rattle.surface.specs.Surface as Surface;
ghost use Rattle.surface.specs.Inner.Leans.{factor_of, weighted_in};

pub use columns::Columns;
pub use gather::{normal_in, store_columns};
pub use strip::{Row, Strip};

const FACTOR_1_2: f32 = 1.0 / 2.0;

const FACTOR_1_3: f32 = 1.0 / 3.0;

const FACTOR_1_4: f32 = 1.0 / 4.0;

const FACTOR_2_3: f32 = 2.0 / 3.0;

// The leans along x and y, turned round, and what each counts for.
#[derive(Clone, Copy)]
pub struct Normal {
    pub fx: f32,
    pub fy: f32,
    pub x: f32,
    pub y: f32,
}

// A lean, turned round.
fn turned(ahead: u16, behind: u16) -> f32
    requires { (ahead ≤ 1020) × (behind ≤ 1020) }
    ensures { result ≡ Surface.turned (sub_ℕ ahead behind) }
{
    f32::from(behind as i16 - ahead as i16)
}

#[tactic(auto, unfolding(crate::specs::Surface::at_edge))]
fn at_edge(at: u16, count: u16) -> bool
    requires { at < count }
    ensures { result ≡ Surface.at_edge count at }
{
    at == 0 || at + 1 == count
}

// What a lean counts for, by whether its pixel is at an edge along it, and across it.
fn factor(along: bool, across: bool) -> f32
    ensures { result ≡ factor_of along across }
{
    let edge = if across { FACTOR_2_3 } else { FACTOR_1_2 };
    let inside = if across { FACTOR_1_3 } else { FACTOR_1_4 };
    if along { edge } else { inside }
}

// The alphas of three columns of a row by the weights 1, 2, 1.
fn weighted_in(row: &[u8], i: usize) -> u16
    requires { i + 2 < length row.now }
    ensures is { result ≡ weighted_in row.now i }
    ensures small { result ≤ 1020 }
{
    u16::from(row[i]) + 2 * u16::from(row[i + 1]) + u16::from(row[i + 2])
}
