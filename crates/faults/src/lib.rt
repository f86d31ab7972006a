// What builds and reads answer: deliveries, and faults with their refusals.
#![tactic(auto)]

pub mod delivery;
pub mod fault;
pub mod refusals;

pub use delivery::{Built, Delivery};
pub use fault::{Fault, HeaderFault, PayloadFault, PreambleFault};
