// How numbers, octets, chips and changes are written behind a text.
#![tactic(auto)]

mod changes;
mod chips;
mod octets;
mod text;

pub use changes::{Changes, write_changes};
pub use chips::{Chips, write_chips};
pub use octets::{Octets, write_octets};
pub use text::put;
