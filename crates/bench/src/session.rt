// A station that builds two frames, reads the second back with damage, and answers questions.
use crate::frame::MAC;
use crate::hex::Hex;
use crate::outcome::Spot;
use crate::spoil::{spoil, turn};
use crate::word::PAGE;
use faults::{Delivery, Fault};
use menders::{Full, Single};
use mending::{Mender, Then};
use station::Station;

fn show_refusal(rt: &impl Print, fault: Fault) -> anyhow::Result<()> {
    let refusal = fault.refusal();
    println!(rt;
        "  refused   number {}, layer {}, {}",
        refusal.number,
        refusal.layer,
        Spot(fault)
    )?;
    Ok(())
}

fn show_delivery(rt: &impl Print, d: Delivery, mac: &[u8], body: &[u8]) -> anyhow::Result<()> {
    println!(rt;
        "  delivered mode {}, seed {}, length {}, {} octets mended",
        d.mode.number(),
        d.seed,
        d.length,
        d.mended
    )?;
    println!(rt; "  MAC       {}", Hex(mac))?;
    if let Some(body) = body.get(..d.length) {
        println!(rt; "  body      {}", Hex(body))?;
    }
    Ok(())
}

// Builds the page in mode 3.
fn show_build<M: Mender>(
    rt: &impl Print,
    station: &mut Station<M>,
    chips: &mut [u8],
) -> anyhow::Result<()> {
    let mut body = *PAGE;
    if let Ok(built) = station.build(3, false, MAC, &mut body, chips) {
        println!(rt; "  built     seed {}, {} chips", built.seed, built.chips)?;
    }
    Ok(())
}

// Reads a window of two channels, and shows what came of it.
fn show_read<M: Mender>(
    rt: &impl Print,
    station: &mut Station<M>,
    window: &[u8],
) -> anyhow::Result<()> {
    let mut body = [0u8; 2048];
    let mut mac = [0u8; 10];
    match station.read(2, window, &mut body, &mut mac) {
        Ok(d) => show_delivery(rt, d, &mac, &body),
        Err(e) => show_refusal(rt, e),
    }
}

fn show_tally<M: Mender>(rt: &impl Print, station: &Station<M>) -> anyhow::Result<()> {
    if let Some(row) = station.delivered(3) {
        println!(rt;
            "  tally     mode 3: {} windows, {} octets mended",
            row.windows, row.octets
        )?;
    }
    if let Some(count) = station.refused(8) {
        println!(rt; "  tally     refusal 8: {count}")?;
    }
    Ok(())
}

// Spoils a chip of SFD2, nine chips of a header bit, and a chip in each of six octets of the body's word.
fn damage(chips: &mut [u8]) {
    turn(chips, 4096 + 200, 1);
    turn(chips, 5120 + 16 * 70, 9);
    for chip in chips.iter_mut().skip(9216).step_by(40).take(6) {
        *chip ^= 1;
    }
}

pub(crate) fn show_session(rt: &(impl Print + AllocGlobal)) -> anyhow::Result<()> {
    let mut chips = vec![in rt.alloc(); 0u8; 50176]?;
    let mut station = Station::open(Then {
        first: Single {},
        second: Full {},
    });
    println!(rt; "A station over single, then full")?;
    show_build(rt, &mut station, chips.as_mut_slice())?;
    show_build(rt, &mut station, chips.as_mut_slice())?;
    damage(chips.as_mut_slice());
    println!(rt; "  damaged   a code, a header bit and six octets of the body")?;
    show_read(rt, &mut station, chips.as_slice())?;
    spoil(chips.as_mut_slice(), 9, 2);
    println!(rt; "  damaged   a chip is neither lit nor dark")?;
    show_read(rt, &mut station, chips.as_slice())?;
    show_tally(rt, &station)
}
