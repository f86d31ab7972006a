// Menders, which propose changes to a word, and mending a word with any of them.
#![tactic(auto)]

pub mod mender;
pub mod mending;

pub use mender::{Mender, Still, Then};
pub use mending::mend;
