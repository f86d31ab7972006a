// A small capture with faults in it, listed as `bench capture` lists a file.
use crate::capture::show_capture;
use crate::frame::MAC;
use crate::samples::window_line;
use crate::spoil::turn;
use menders::Full;
use station::Station;
use std::alloc::{AllocError, Global};

const PAGE: &[u8; 4] = b"page";

// A frame of mode 1, one channel, built by the station, as a line of a capture.
fn built_line(heap: Global, station: &mut Station<Full>) -> Result<Vec<u8>, AllocError> {
    let mut chips = vec![in heap; 0u8; 7168]?;
    let mut body = *PAGE;
    let _ = station.build(1, false, MAC, &mut body, chips.as_mut_slice());
    window_line(heap, 1, chips.as_slice())
}

// Seeds 0, 0 again with three octets spoiled, and 3; half of SFD2 turned over; a line with no chips, and one with a bad chip.
fn sample(heap: Global) -> Result<Vec<u8>, AllocError> {
    let mut station = Station::open(Full {});
    let mut text = built_line(heap, &mut station)?;
    let mut again = text.clone()?;
    turn(again.as_mut_slice(), 2 + 6656, 20);
    text.extend_from_slice(again.as_slice())?;
    let _ = built_line(heap, &mut station)?;
    let _ = built_line(heap, &mut station)?;
    let last = built_line(heap, &mut station)?;
    text.extend_from_slice(last.as_slice())?;
    let mut dark = last;
    turn(dark.as_mut_slice(), 2 + 2048 + 128, 64);
    text.extend_from_slice(dark.as_slice())?;
    text.extend_from_slice(b"# a comment\n1\n1 012\n")?;
    Ok(text)
}

pub(crate) fn show_captured(rt: &(impl Print + Eprint + AllocGlobal)) -> anyhow::Result<()> {
    println!(rt; "A capture of four windows")?;
    let text = sample(rt.alloc())?;
    show_capture(rt, text.as_slice())?;
    Ok(())
}
