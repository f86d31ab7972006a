// Menders that look for the codeword next to a word.
#![tactic(auto)]

pub mod decoder;
mod kernel;
mod search;
mod syndrome;
mod values;

pub use decoder::{Decoder, Full, Single};
