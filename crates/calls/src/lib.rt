// The calls of the script language, and how a line says one.
#![tactic(auto)]

pub mod call;
pub mod reader;
mod word;

pub use call::{Build, Call, Read, StationCall};
pub use reader::read_call;
