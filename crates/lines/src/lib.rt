// Lines of a text that holds calls or windows: which are passed over, what of the others is read, and what can be wrong.
#![tactic(auto)]

pub mod line;
pub mod wrong;

pub use line::{call_part, is_passed_over};
pub use wrong::{Stop, Wrong};
