// Words: messages with their parity, and changes to them.
#![tactic(auto)]

pub mod acceptance;
pub mod change;
pub mod coder;
pub mod fault;
pub mod parity;

pub use acceptance::{accept, apply};
pub use change::Change;
pub use coder::{encode, is_codeword};
pub use fault::{CoderFault, Layer, Refusal, WordFault};
pub use parity::Parity;
