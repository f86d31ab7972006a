// How long a frame is.
ghost use Rattle.std.specs.Prelude.{◌≡◌};
ghost use Rattle.format.specs.Payload.{word_count, block_count};
ghost use Rattle.format.specs.Frame.{frame_length, payload_place};
ghost use Rattle.format.specs.Modes.{row};

use crate::mode::Mode;

// How many words a body of so many octets has.
pub fn word_count(length: u16) -> u16
    ensures { result ≡ word_count length }
{
    length.div_ceil(224)
}

// How many blocks of 508 bits hold its words.
pub fn block_count(length: u16) -> usize
    ensures { result ≡ block_count length }
{
    let octets = length as usize + 16 * word_count(length) as usize;
    (8 * octets).div_ceil(508)
}

// Where the payload begins: behind SYNC, the SFD groups and the header.
pub fn payload_place(mode: Mode) -> usize
    ensures { result ≡ payload_place (row mode).channels }
{
    2560 * mode.channels() + 4096
}

// How many chips its frame has.
pub fn frame_length(mode: Mode, length: u16) -> usize
    ensures { result ≡ frame_length mode length }
{
    payload_place(mode) + 512 * mode.spread() * block_count(length)
}
