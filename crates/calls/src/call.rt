// The calls, with what their words say.
use chosen::Mending;
use words::Change;

#[derive(Drop)]
pub struct Build {
    pub mode: u8,
    pub aggregation: bool,
    pub mac: Vec<u8>,
    pub body: Vec<u8>,
    // How many chips the chip buffer has.
    pub room: usize,
}

#[derive(Drop)]
pub struct Read {
    pub channels: u8,
    pub window: Vec<u8>,
    // How many octets the body buffer and the MAC header buffer have.
    pub body_room: usize,
    pub mac_room: usize,
}

// A call on a station.
#[derive(Drop)]
pub enum StationCall {
    Build(Build),
    Read(Read),
    // A question about a mode, and about a refusal.
    Mode(u8),
    Refusal(u8),
}

#[derive(Drop)]
pub enum Call {
    Open(Mending),
    // A call on the station that was opened last.
    Station(StationCall),
    // The channels, and the chips of a window.
    Header(u8, Vec<u8>),
    // The mode, the block's number, and the chips of a window.
    Block(u8, usize, Vec<u8>),
    // The message, and how many octets the parity buffer has.
    Encode(Vec<u8>, usize),
    Codeword(Vec<u8>),
    Hcs(Vec<u8>),
    Propose(Mending, Vec<u8>),
    Accept(Vec<u8>, Vec<Change>),
    Mend(Mending, Vec<u8>),
}
