// The tables of a seed: 514 selector entries, and four sets of 514 gradient pairs side by side.
// What fills arrays is not inlined, so that its stack is given back when it returns and not held through all of `draw`.
ghost use Rattle.std.specs.Prelude.{◌≡◌, ◌+◌, ◌%◌, ◌<◌, get_or};
ghost use Rattle.sheet.specs.Tabulate.{tabulate};
ghost use Rattle.turbulence.specs.Random.{State, next};
ghost use Rattle.turbulence.specs.Selector.{exchange, order, selector};
ghost use Rattle.turbulence.specs.Gradient.{component, pair_length, gradient_x, gradient_y, after_pairs, drawn_x, drawn_y, side_by_side};
ghost use Rattle.turbulence.specs.Noise.{along};
ghost use Rattle.turbulence.specs.Tables.{selector_of, gradients_x, gradients_y};

use crate::random::{random, start};
use floats::sqrt;
use std::array;

// Number 4 i + c of `x` and of `y` is entry i of channel c. Two arrays, as `gradients_x` and `gradients_y` of specs/Tables, which
// theorems speak of, are two lists.
#[derive(Drop)]
pub struct Tables {
    pub selector: [u8; 514],
    pub x: [f64; 2056],
    pub y: [f64; 2056],
}

impl Tables {
    // The gradient number of the corner whose column has the selector's entry i, in row j.
    pub fn corner(&self, i: u8, j: usize) -> usize
        requires { j < 256 }
        ensures { (result ≡ get_or self.now.selector (i + j) 0) × (result < 256) }
    {
        usize::from(self.selector[usize::from(i) + j])
    }

    // Channel c's gradient of the corner b, along (rx, ry).
    pub fn along(&self, c: usize, b: usize, rx: f64, ry: f64) -> f64
        requires { (c < 4) × (b < 256) }
        ensures { result ≡ along self.now.x self.now.y c b rx ry }
    {
        rx * self.x[4 * b + c] + ry * self.y[4 * b + c]
    }
}

// The tables of any seed. A pair whose length is 0 is NaN, as in the Rust, and the seed still draws.
#[inline(never)]
pub fn init(seed: i32) -> Tables
    ensures { (result.selector ≡ selector_of seed) × (result.x ≡ gradients_x seed) × (result.y ≡ gradients_y seed) }
{
    let drawn = draw_pairs(start(seed));
    Tables {
        selector: lattice_selector(drawn.state),
        x: side_by_side(&drawn.x),
        y: side_by_side(&drawn.y),
    }
}

// The number that a state draws, from -1 on, below 1.
fn component_of(state: u32) -> f64
    ensures { result ≡ component state }
{
    let whole = (state % 512) as i32 - 256;
    whole as f64 / 256.0
}

fn pair_length(u: f64, v: f64) -> f64
    ensures { result ≡ pair_length u v }
{
    sqrt(u * u + v * v)
}

// A pair of length 1, and the state after its draws.
#[derive(Clone, Copy)]
struct Drawn {
    x: f64,
    y: f64,
    state: u32,
}

fn draw_pair(state: u32) -> Drawn
    requires { State state }
    ensures { (result.x ≡ gradient_x state) × (result.y ≡ gradient_y state) × (result.state ≡ next (next state)) × State result.state }
{
    let first = random(state);
    let second = random(first);
    let u = component_of(first);
    let v = component_of(second);
    let length = pair_length(u, v);
    Drawn {
        x: u / length,
        y: v / length,
        state: second,
    }
}

// The pairs in the order of the draws, channel by channel, and the state after them. Two arrays, as `drawn_x` and `drawn_y` of
// specs/Gradient.
#[derive(Clone, Copy)]
struct Pairs {
    x: [f64; 1024],
    y: [f64; 1024],
    state: u32,
}

#[inline(never)]
fn draw_pairs(state: u32) -> Pairs
    requires { State state }
    ensures { (result.x ≡ drawn_x state) × (result.y ≡ drawn_y state) × (result.state ≡ after_pairs 1024 state) × State result.state }
{
    let mut pairs = Pairs {
        x: [0.0; 1024],
        y: [0.0; 1024],
        state,
    };
    for d in 0..1024 {
        let drawn = draw_pair(pairs.state);
        pairs.x[d] = drawn.x;
        pairs.y[d] = drawn.y;
        pairs.state = drawn.state;
    }
    pairs
}

// The four channels' entries side by side; those from 256 on repeat the first.
#[inline(never)]
fn side_by_side(drawn: &[f64; 1024]) -> [f64; 2056]
    ensures { result ≡ side_by_side drawn.now }
{
    array::from_fn(|k| drawn[256 * (k % 4) + k / 4 % 256])
}

// 0..=255.
fn count_up() -> [u8; 256]
    ensures { result ≡ tabulate 256 (λ k. k) }
{
    array::from_fn(|k| k as u8)
}

// What stands in places i and j changes places.
#[tactic(auto, using(std::proofs::lemmas::List::Edits::swap_is), unfolding(crate::specs::Selector::exchange))]
fn exchange(places: &mut [u8; 256], i: usize, j: usize)
    requires { (i < 256) × (j < 256) }
    ensures { places.new ≡ exchange places.old i j }
{
    places.swap(i, j);
}

// Places 255 down to 1 of 0..=255 are each exchanged with the place that the next state draws.
fn shuffled(state: u32) -> [u8; 256]
    requires { State state }
    ensures { result ≡ order state }
{
    let mut places = count_up();
    let mut drawn = state;
    for i in (1..256).rev() {
        drawn = random(drawn);
        exchange(&mut places, i, (drawn % 256) as usize);
    }
    places
}

// Entry n: those from 256 on repeat the first.
fn entry(places: &[u8; 256], n: usize) -> u8
    ensures { result ≡ get_or places.now (n % 256) 0 }
{
    places[n % 256]
}

// The shuffled places, repeated.
#[inline(never)]
fn lattice_selector(state: u32) -> [u8; 514]
    requires { State state }
    ensures { result ≡ selector state }
{
    let places = shuffled(state);
    array::from_fn(|n| entry(&places, n))
}
