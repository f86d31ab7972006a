// One frame written as chips and taken apart again.
use crate::hex::Hex;
use crate::word::PAGE;
use format::frame_length;
use frames::write_frame;
use receiver::preamble::read_mode;
use slicer::{body_word, header_word, open_header};
use windows::Window;

pub const MAC: &[u8; 10] = b"\x01\x02\x03\x04\x05\x06\x07\x08\x09\x0a";

// What the chips say.
fn show_parts(rt: &impl Print, window: Window<'_>) -> anyhow::Result<()> {
    let Ok(mode) = read_mode(window, 2) else {
        println!(rt; "  no mode is read")?;
        return Ok(());
    };
    let Ok(part) = window.header(2) else {
        println!(rt; "  no header is there")?;
        return Ok(());
    };
    let opened = open_header(&header_word(part));
    let mut word = [0u8; 240];
    let length = (opened.phy.length & 0xffff) as u16;
    let size = body_word(window, mode, length, 0, &mut word);
    println!(rt;
        "  read      mode {}, seed {}, length {}, {} chips",
        mode.number(),
        opened.phy.seed,
        opened.phy.length,
        frame_length(mode, length)
    )?;
    println!(rt;
        "  header    {} chips at {}, MAC header {}",
        part.chips.len(),
        part.place,
        Hex(&opened.mac)
    )?;
    println!(rt; "  word 1    {size} octets")?;
    Ok(())
}

pub(crate) fn show_frame(rt: &(impl Print + AllocGlobal)) -> anyhow::Result<()> {
    let mut chips = vec![in rt.alloc(); 0u8; 50176]?;
    let mut body = *PAGE;
    println!(rt; "A frame")?;
    let Ok(n) = write_frame(3, 5, false, MAC, &mut body, chips.as_mut_slice()) else {
        println!(rt; "  not written")?;
        return Ok(());
    };
    println!(rt;
        "  written   mode 3, seed 5, length {}, {n} chips",
        PAGE.len()
    )?;
    show_parts(rt, Window::new(chips.as_slice()))
}
