// What the words of a line say: numbers, octets, chips and changes; and how a line is cut into its words.
#![tactic(auto)]

mod changes;
mod chips;
mod list;
mod number;
mod octets;
mod pieces;
mod text;

pub use changes::read_changes;
pub use chips::read_chips;
pub use number::read_number;
pub use octets::read_octets;
pub use pieces::{count_pieces, piece};
pub use text::same;
