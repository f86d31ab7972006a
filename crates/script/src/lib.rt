// A desk that carries out the calls of a script, one line after the other.
#![tactic(auto)]

mod buffer;
pub mod desk;
mod part_calls;
mod station_calls;
mod word_calls;

pub use desk::{Desk, Outcome};
