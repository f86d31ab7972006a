// The slicer: from the chips of a window's parts to the octets of words, and what a header word says.
#![tactic(auto)]

pub mod opened;
pub mod slicer;

pub use opened::{Opened, open_header};
pub use slicer::{body_word, header_word};
