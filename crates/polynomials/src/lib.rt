// Rows of elements as polynomials: differences, division, and the checks that are computed by division.
#![tactic(auto)]

pub mod check;
pub mod difference;
pub mod polynomial;
mod proper;

pub use check::{Check, checksum};
pub use difference::differences;
pub use polynomial::remainder;
