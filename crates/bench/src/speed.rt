// How fast words are coded and mended, and frames built and read.
use crate::frame::MAC;
use crate::spoil::spoil_some;
use crate::stopwatch::nanoseconds;
use menders::Full;
use mending::mend;
use station::Station;
use std::alloc::{AllocError, Global};
use std::fmt::Display;
use std::rt::Clock;
use words::encode;

// The mode with the largest frames.
const MODE: u8 = 6;

const CHANNELS: u8 = 4;

// A largest frame, its chips, and room for its body.
#[derive(Drop)]
struct Frame {
    station: Station<Full>,
    body: Vec<u8>,
    chips: Vec<u8>,
}

impl Frame {
    fn new(heap: Global) -> Result<Frame, AllocError> {
        let mut body = vec![in heap; 0u8; 2048]?;
        fill(body.as_mut_slice());
        Ok(Frame {
            station: Station::open(Full {}),
            body,
            chips: vec![in heap; 0u8; 50176]?,
        })
    }

    fn build(&mut self) -> bool {
        self.station
            .build(
                MODE,
                false,
                MAC,
                self.body.as_mut_slice(),
                self.chips.as_mut_slice(),
            )
            .is_ok()
    }

    // Reads the built frame back.
    fn read(&mut self) -> bool {
        let mut mac = [0u8; 10];
        let answer = self.station.read(
            CHANNELS,
            self.chips.as_slice(),
            self.body.as_mut_slice(),
            &mut mac,
        );
        answer.is_ok_and(|d| d.mended == 0 && d.length == 2048)
    }
}

// The parity of a longest message. A parity octet is put into the message, so that no two rounds are one.
fn code(message: &mut [u8; 224]) -> bool {
    let mut parity = [0u8; 16];
    let answer = encode(message, &mut parity);
    message[0] = parity[15];
    answer.is_ok()
}

// Mends a copy of a word.
fn mends(word: &[u8; 240], spoiled: usize) -> bool {
    let mut room = *word;
    mend(&mut Full {}, &mut room) == Ok(spoiled)
}

// Octets seven apart, from 3 on.
fn fill(octets: &mut [u8]) {
    let mut next = 3u8;
    for o in octets.iter_mut() {
        *o = next;
        next = next.wrapping_add(7);
    }
}

// A longest message with its parity behind it, and then some octets spoiled.
fn spoiled_word(spoiled: usize) -> [u8; 240] {
    let mut word = [0u8; 240];
    let (message, parity) = word.split_at_mut(224);
    fill(message);
    let _ = encode(message, parity);
    spoil_some(&mut word, spoiled);
    word
}

fn show<F: FnMut() -> bool>(
    rt: &(impl Print + Clock),
    name: impl Display + Drop,
    octets: u16,
    round: F,
) -> anyhow::Result<()>
    requires { (state : F) → F.pre state }
{
    match nanoseconds(rt, octets, round)? {
        Some(mean) => println!(rt; "speed {name} {mean:.1} ns/octet")?,
        None => println!(rt; "speed {name} went wrong")?,
    }
    Ok(())
}

pub(crate) fn show_speed(rt: &(impl Print + Clock + AllocGlobal)) -> anyhow::Result<()> {
    let mut frame = Frame::new(rt.alloc())?;
    show(rt, "build", 2048, || frame.build())?;
    show(rt, "read", 2048, || frame.read())?;
    let mut message = [0u8; 224];
    fill(&mut message);
    show(rt, "parity", 224, || code(&mut message))?;
    for spoiled in [0usize, 1, 4, 8] {
        let word = spoiled_word(spoiled);
        show(rt, format_args!("mend-{spoiled}"), 240, || {
            mends(&word, spoiled)
        })?;
    }
    Ok(())
}
