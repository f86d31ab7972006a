// The calls on a station.
use crate::buffer::Buffer;
use answers::Answer;
use buffers::{Buffers, after_build, after_read};
use calls::{Build, Read, StationCall};
use chosen::Mending;
use faults::Fault;
use station::Station;
use std::alloc::{AllocError, Global};

fn refused(fault: Fault, buffers: Buffers) -> Answer {
    Answer::Refused(fault.refusal(), fault.cause(), Some(buffers))
}

// Builds into a chip buffer of nines.
fn build(heap: Global, station: &mut Station<Mending>, call: Build) -> Result<Answer, AllocError> {
    let Build {
        mode,
        aggregation,
        mac,
        body,
        room,
    } = call;
    let mut body = Buffer::holding(heap, body)?;
    let mut chips = Buffer::filled(heap, 9, room)?;
    let answer = station.build(
        mode,
        aggregation,
        mac.as_slice(),
        body.after.as_mut_slice(),
        chips.after.as_mut_slice(),
    );
    let written = answer.as_ref().ok().map(|built| built.chips);
    let buffers = after_build(written, body.looks(), chips.looks());
    match answer {
        Ok(built) => {
            chips.after.truncate(built.chips);
            Ok(Answer::Built(built, buffers, chips.after))
        }
        Err(fault) => Ok(refused(fault, buffers)),
    }
}

// Reads into a body buffer and a MAC header buffer of octets 0xee.
fn read(heap: Global, station: &mut Station<Mending>, call: &Read) -> Result<Answer, AllocError> {
    let mut body = Buffer::filled(heap, 0xee, call.body_room)?;
    let mut mac = Buffer::filled(heap, 0xee, call.mac_room)?;
    let answer = station.read(
        call.channels,
        call.window.as_slice(),
        body.after.as_mut_slice(),
        mac.after.as_mut_slice(),
    );
    let length = answer.as_ref().ok().map(|delivery| delivery.length);
    let buffers = after_read(length, mac.looks(), body.looks());
    match answer {
        Ok(delivery) => {
            body.after.truncate(delivery.length);
            Ok(Answer::Delivered(delivery, buffers, mac.after, body.after))
        }
        Err(fault) => Ok(refused(fault, buffers)),
    }
}

fn ask_mode(station: &Station<Mending>, mode: u8) -> Answer {
    match station.delivered(mode) {
        Some(row) => Answer::Row(mode, row.windows, row.octets),
        None => Answer::Nothing,
    }
}

fn ask_refusal(station: &Station<Mending>, number: u8) -> Answer {
    match station.refused(number) {
        Some(count) => Answer::Count(number, count),
        None => Answer::Nothing,
    }
}

pub(crate) fn on_station(
    heap: Global,
    station: &mut Station<Mending>,
    call: StationCall,
) -> Result<Answer, AllocError> {
    match call {
        StationCall::Build(call) => build(heap, station, call),
        StationCall::Read(call) => read(heap, station, &call),
        StationCall::Mode(mode) => Ok(ask_mode(station, mode)),
        StationCall::Refusal(number) => Ok(ask_refusal(station, number)),
    }
}
