// Receiving: one window read with any mender, without a tally.
#![tactic(auto)]

pub mod body;
pub mod door;
pub mod frame;
pub mod header;
pub mod preamble;

pub use frame::receive;
