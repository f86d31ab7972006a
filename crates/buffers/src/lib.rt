// What became of the buffers of a call, found by looking at them.
#![tactic(auto)]

mod buffers;

pub use buffers::{Buffers, Looks, after_build, after_encode, after_read};
