// The format of frames: modes, codes, sequences and headers, and what is proved of them.
#![tactic(auto)]

pub mod code;
mod codes;
pub mod fault;
pub mod hcs;
pub mod header;
pub mod known;
pub mod laws;
pub mod mode;
pub mod modes;
pub mod phy;
pub mod sequence;
pub mod sizes;

pub use code::Code;
pub use codes::chips_of;
pub use fault::DoorFault;
pub use hcs::{Hcs, header_check};
pub use header::{pack, unpack};
pub use known::known_pieces;
pub use laws::fitting_reach;
pub use mode::Mode;
pub use phy::Phy;
pub use sequence::{Register, mix};
pub use sizes::{block_count, frame_length, payload_place, word_count};
