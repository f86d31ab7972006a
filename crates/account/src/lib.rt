// What builds and reads come to, and what is claimed of them: definitions and their laws.
#![tactic(auto)]

pub mod head;

pub use head::Head;
