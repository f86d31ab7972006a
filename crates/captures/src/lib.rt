// Captures: text files with one window of chips a line.
#![tactic(auto)]

pub mod fault;
pub mod line;
pub mod seed;
pub mod text;

pub use fault::LineFault;
pub use line::{Written, read_window};
pub use seed::{SeedFault, seed_fault};
pub use text::{Lines, split_line, split_once};
