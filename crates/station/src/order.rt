// Calls to be made on a station, and what they answered.
use crate::tally::Row;
use faults::{Built, Delivery, Fault};

// A call on common buffers: a build writes the body to the chips, and a read takes the chips as its window.
#[derive(Clone, Copy, PartialEq, Eq, Debug)]
pub enum Order {
    // The mode's number, and whether the frame is aggregated.
    Build(u8, bool),
    // The channels.
    Read(u8),
    // The question about a mode, and about a refusal.
    Delivered(u8),
    Refused(u8),
}

// What a call answered.
#[derive(Clone, Copy, PartialEq, Eq, Debug)]
pub enum Answer {
    // No call was made yet: what a log is filled with before its calls.
    Nothing,
    Built(Result<Built, Fault>),
    Read(Result<Delivery, Fault>),
    Delivered(Option<Row>),
    Refused(Option<u32>),
}
