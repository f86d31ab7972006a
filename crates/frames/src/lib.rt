// Frames as chips: writing them.
#![tactic(auto)]

mod header;
mod payload;
mod preamble;
pub mod scrambled;
mod word;
pub mod writer;

pub use scrambled::Scrambled;
pub use writer::write_frame;
