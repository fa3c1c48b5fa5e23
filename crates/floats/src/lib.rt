// What Rust does with an `f32` or an `f64`, by this project's definitions, and the exact tests of parameters.
// Every function takes every float, infinities and NaN included.
#![tactic(auto)]

mod byte;
mod channel;
mod float;
mod floor;
mod narrow;
mod order;
mod root;
mod round;
mod unit;
mod whole;

pub use byte::to_byte;
pub use channel::{from_normalized, normalized, scaled_to_byte};
pub use float::Float;
pub use floor::floor_to_byte;
pub use narrow::to_f32;
pub use order::{abs64, bound, is_finite, near_zero, within};
pub use root::{roots, sqrt};
pub use round::round_to_i32;
pub use unit::{unit_pair, unit_triple};
pub use whole::{to_i32, whole_part};
