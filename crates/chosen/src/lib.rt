// Menders that are chosen while a program runs: one of the known ones, or several of them one after the other.
#![tactic(auto)]

pub mod leaf;
pub mod naming;
pub mod pile;

pub use leaf::Leaf;
pub use naming::Named;
pub use pile::Pile;

// A mender with up to three `then` inside one another.
pub type Mending = Pile<Pile<Pile<Leaf>>>;
