// The frame station: it builds frames as chips, reads windows back and keeps a tally.
#![tactic(auto)]

pub mod driver;
pub mod order;
pub mod station;
pub mod tally;

pub use driver::drive;
pub use order::{Answer, Order};
pub use station::Station;
pub use tally::Row;
