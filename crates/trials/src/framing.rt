// Frames built and read back, and chips at the edges of what is read.
use crate::count::Count;
use crate::octets::fill;
use faults::{Delivery, Fault, PreambleFault};
use format::{Mode, Register};
use mending::{Mender, Still};
use slicer::{body_word, header_word};
use station::Station;
use std::alloc::{AllocError, Global};
use windows::{Part, Window};

const MAC: &[u8; 10] = b"\x10\x32\x54\x76\x98\xba\xdc\xfe\x01\x23";

// Each mode with its channels.
const MODES: [(Mode, u8); 7] = [
    (Mode::M1, 1),
    (Mode::M2, 2),
    (Mode::M3, 2),
    (Mode::M4, 3),
    (Mode::M5, 3),
    (Mode::M6, 4),
    (Mode::M7, 4),
];

// The lengths where words and blocks begin and end.
pub(crate) const LENGTHS: [usize; 8] = [0, 1, 223, 224, 225, 448, 2047, 2048];

// Whether a frame of this mode and length comes back as it was sent, with nothing to mend.
fn comes_back<M: Mender>(
    heap: Global,
    station: &mut Station<M>,
    mode: Mode,
    channels: u8,
    length: usize,
) -> Result<bool, AllocError> {
    let mut body = vec![in heap; 0u8; length]?;
    fill(body.as_mut_slice(), 3, 7);
    let mut chips = vec![in heap; 0u8; 50176]?;
    let mut out = [7u8; 2048];
    let mut mac = [7u8; 10];
    let Ok(built) = station.build(
        mode.number(),
        true,
        MAC,
        body.as_mut_slice(),
        chips.as_mut_slice(),
    ) else {
        return Ok(false);
    };
    let sent = Delivery {
        mode,
        seed: built.seed,
        aggregation: true,
        length,
        mended: 0,
    };
    let answer = station.read(channels, chips.as_slice(), &mut out, &mut mac);
    Ok(answer == Ok(sent) && out.starts_with(body.as_slice()) && mac == *MAC)
}

fn each_length<M: Mender>(
    heap: Global,
    count: &mut Count,
    station: &mut Station<M>,
    mode: Mode,
    channels: u8,
) -> Result<(), AllocError> {
    for length in LENGTHS {
        count.note(comes_back(heap, station, mode, channels, length)?);
    }
    Ok(())
}

// Every mode at every length.
pub(crate) fn round_trips(heap: Global) -> Result<Count, AllocError> {
    let mut count = Count::default();
    let mut station = Station::open(Still {});
    for (mode, channels) in MODES {
        each_length(heap, &mut count, &mut station, mode, channels)?;
    }
    Ok(count)
}

fn flip(chips: &mut [u8], from: usize, count: usize) {
    for c in chips.iter_mut().skip(from).take(count) {
        *c ^= 1;
    }
}

// A frame of mode 1 with some chips of SFD2 wrong, read back.
fn wrong_chips(heap: Global, wrong: usize) -> Result<Option<Fault>, AllocError> {
    let mut chips = vec![in heap; 0u8; 6656]?;
    let mut station = Station::open(Still {});
    let _ = station.build(1, false, MAC, &mut [], chips.as_mut_slice());
    flip(chips.as_mut_slice(), 2048 + 128, wrong);
    let answer = station.read(1, chips.as_slice(), &mut [0u8; 2048], &mut [0u8; 10]);
    Ok(answer.err())
}

// The first octet of a header whose bits are all dark but for so many chips of the first bit.
fn majority(heap: Global, lit: usize) -> Result<u8, AllocError> {
    let mut chips = vec![in heap; 0u8; 4096]?;
    let mut register = Register::spreader();
    chips.as_mut_slice().fill_with(|| register.next());
    flip(chips.as_mut_slice(), 0, lit);
    let word = header_word(Part {
        chips: chips.as_slice(),
        place: 0,
    });
    Ok(word[0])
}

// The first octet of a payload that is sent twice, with eight pairs 1, 0.
fn pairs(heap: Global) -> Result<u8, AllocError> {
    let mut chips = vec![in heap; 0u8; 10240]?;
    chips[9216..9232].copy_from_slice([[1u8, 0]; 8].as_flattened());
    let mut word = [0u8; 240];
    let _ = body_word(Window::new(chips.as_slice()), Mode::M2, 1, 0, &mut word);
    Ok(word[0])
}

pub(crate) fn edges(heap: Global) -> Result<Count, AllocError> {
    let mut count = Count::default();
    count.note(wrong_chips(heap, 31)?.is_none());
    count.note(wrong_chips(heap, 32)? == Some(Fault::Preamble(PreambleFault::Unreadable(2))));
    count.note(majority(heap, 8)? == 0);
    count.note(majority(heap, 9)? == 1);
    count.note(pairs(heap)? == 0xff);
    Ok(count)
}
