// What a call answers.
use buffers::Buffers;
use faults::{Built, Delivery};
use words::{Change, Refusal, WordFault};

#[derive(Drop)]
pub enum Answer {
    // A station is opened, over a mender of this reach.
    Opened(usize),
    // What was built, and the chips that were written.
    Built(Built, Buffers, Vec<u8>),
    // What was delivered, the MAC header and the body.
    Delivered(Delivery, Buffers, Vec<u8>, Vec<u8>),
    // How many windows were delivered in a mode and how many octets were mended in them; and how many builds and reads a refusal turned down.
    Row(u8, u32, u32),
    Count(u8, u32),
    // There is no such mode, refusal or block.
    Nothing,
    // Where a part of a window begins, and its chips.
    Part(usize, Vec<u8>),
    Parity(Vec<u8>),
    Codeword(bool),
    Hcs([u8; 2]),
    Proposed(Vec<Change>),
    NotProposed,
    // The changed word.
    Accepted(Vec<u8>),
    // The word needs no mending.
    Whole,
    Mended(Vec<u8>),
    Unmended(WordFault),
    // The word's cause where there is one, and the buffers where the call has some.
    Refused(Refusal, Option<WordFault>, Option<Buffers>),
}
