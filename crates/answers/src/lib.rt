// What the calls of a script answer, and how an answer is written.
#![tactic(auto)]

pub mod answer;
pub mod texts;

pub use answer::Answer;
pub use texts::write_answer;
