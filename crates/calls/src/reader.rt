// Reading a call from the words of a line.
ghost use Rattle.std.specs.Prelude.{◌≡◌, vec_items};
ghost use Rattle.calls.specs.Said.{Reads, number_at, octets_at, mender_at};
ghost use Rattle.calls.specs.Calls.{said, station_view, opens, build_said, read_said, header_said, block_said, encode_said, accept_said, one_said, mender_said, call_said};

use crate::call::{Build, Call, Read, StationCall};
use crate::word::Words;
use chosen::Mending;
use lines::{Stop, Wrong};
use std::alloc::Global;
use std::str;

fn read_build(words: Words<'_>) -> Result<Call, Stop>
    ensures { Reads said (build_said words.entry.text.now) result }
{
    words.takes(5, 6)?;
    let mode = words.small(1)?;
    let aggregation = words.flag(2)?;
    let mac = words.octets(3)?;
    let body = words.octets(4)?;
    let room = words.room(5, 50_176)?;
    Ok(Call::Station(StationCall::Build(Build {
        mode,
        aggregation,
        mac,
        body,
        room,
    })))
}

fn read_header(words: Words<'_>) -> Result<Call, Stop>
    ensures { Reads said (header_said words.entry.text.now) result }
{
    words.takes(3, 3)?;
    Ok(Call::Header(words.small(1)?, words.chips(2)?))
}

fn read_read(words: Words<'_>) -> Result<Call, Stop>
    ensures { Reads said (read_said words.entry.text.now) result }
{
    words.takes(3, 5)?;
    let channels = words.small(1)?;
    let window = words.chips(2)?;
    let body_room = words.room(3, 2048)?;
    let mac_room = words.room(4, 10)?;
    Ok(Call::Station(StationCall::Read(Read {
        channels,
        window,
        body_room,
        mac_room,
    })))
}

fn read_block(words: Words<'_>) -> Result<Call, Stop>
    ensures { Reads said (block_said words.entry.text.now) result }
{
    words.takes(4, 4)?;
    let mode = words.small(1)?;
    let block = words.number(2, 65_535)?;
    Ok(Call::Block(mode, block as usize, words.chips(3)?))
}

fn read_encode(words: Words<'_>) -> Result<Call, Stop>
    ensures { Reads said (encode_said words.entry.text.now) result }
{
    words.takes(2, 3)?;
    Ok(Call::Encode(words.octets(1)?, words.room(2, 16)?))
}

fn read_accept(words: Words<'_>) -> Result<Call, Stop>
    ensures { Reads said (accept_said words.entry.text.now) result }
{
    words.takes(3, 3)?;
    Ok(Call::Accept(words.octets(1)?, words.changes(2)?))
}

fn read_open(words: Words<'_>) -> Result<Call, Stop>
    ensures { Reads said (one_said (mender_at words.entry.text.now 1) opens words.entry.text.now) result }
{
    words.takes(2, 2)?;
    Ok(Call::Open(words.mender(1)?))
}

// A call with a mender and a word for it.
fn read_with_mender<F: FnOnce(Mending, Vec<u8>) -> Call>(
    words: Words<'_>,
    make: F,
) -> Result<Call, Stop>
    requires { F.IsAlwaysCallable make }
    ensures { (view : _) → ((m : _) (w : _) (call : _) → F.post make m w call → said call ≡ view m (vec_items w))
        → Reads said (mender_said view words.entry.text.now) result }
{
    words.takes(3, 3)?;
    Ok(make(words.mender(1)?, words.octets(2)?))
}

// A call with one word, a list of octets.
fn read_octets<F: FnOnce(Vec<u8>) -> Call>(words: Words<'_>, make: F) -> Result<Call, Stop>
    requires { F.IsAlwaysCallable make }
    ensures { (view : _) → ((w : _) (call : _) → F.post make w call → said call ≡ view (vec_items w))
        → Reads said (one_said (octets_at words.entry.text.now 1) view words.entry.text.now) result }
{
    words.takes(2, 2)?;
    Ok(make(words.octets(1)?))
}

// A question about a number.
fn read_question<F: FnOnce(u8) -> StationCall>(words: Words<'_>, ask: F) -> Result<Call, Stop>
    requires { F.IsAlwaysCallable ask }
    ensures { (view : _) → ((n : _) (call : _) → F.post ask n call → station_view call ≡ view n)
        → Reads said (one_said (number_at 255 words.entry.text.now 1) view words.entry.text.now) result }
{
    words.takes(2, 2)?;
    Ok(Call::Station(ask(words.small(1)?)))
}

// The call that a text says, or what is wrong with it.
pub fn read_call(heap: Global, text: &[u8]) -> Result<Call, Stop>
    ensures { Reads said (call_said text.now) result }
{
    let words = Words { heap, text };
    // As text: over thirteen arms on octets the proof search does not come to an end.
    let Ok(name) = str::from_utf8(words.word(0)) else {
        return Err(Stop::Wrong(Wrong::Call));
    };
    match name {
        "header" => read_header(words),
        "block" => read_block(words),
        "encode" => read_encode(words),
        "accept" => read_accept(words),
        "codeword" => read_octets(words, Call::Codeword),
        "hcs" => read_octets(words, Call::Hcs),
        "propose" => read_with_mender(words, Call::Propose),
        "mend" => read_with_mender(words, Call::Mend),
        "build" => read_build(words),
        "read" => read_read(words),
        "open" => read_open(words),
        "mode" => read_question(words, StationCall::Mode),
        "refusal" => read_question(words, StationCall::Refusal),
        _ => Err(Stop::Wrong(Wrong::Call)),
    }
}
