// Writing a frame as chips.
ghost use Rattle.std.specs.Prelude.{◌≡◌, ◌*◌, ◌≤◌, List, ◌++◌, length};
ghost use Rattle.format.specs.Modes.{Row, row, mode_of};
ghost use Rattle.format.specs.Payload.{block_count, blocks};
ghost use Rattle.format.specs.Frame.{preamble, header_chips, frame_length};
ghost use Rattle.frames.specs.Blocks.{carried};
ghost use Rattle.frames.specs.Writing.{sized, write_answer, write_chips};

use crate::header::{word_of, write_header};
use crate::payload::Payload;
use crate::preamble::write_preamble;
use crate::scrambled::Scrambled;
use format::{DoorFault, Mode, Phy, frame_length};

// The mode of a frame, or the first reason to refuse it but for the room that it wants.
fn admit(mode: u8, mac: usize, body: usize) -> Result<Mode, DoorFault>
    ensures { result ≡ sized (mode_of mode) mac body }
{
    let m = Mode::try_from(mode)?;
    if mac != 10 {
        return Err(DoorFault::Mac);
    }
    if body > 2048 {
        return Err(DoorFault::Body);
    }
    Ok(m)
}

// Writes preamble, header and payload one behind the other.
fn write_parts(chips: &mut [u8], word: &[u8; 32], payload: &Payload<'_>)
    requires { length chips.old ≡ frame_length payload.now.mode (length payload.now.body.now) }
    ensures { chips.new ≡ preamble payload.now.mode ++ (header_chips word.now ++ blocks (row payload.now.mode).spread (block_count (length payload.now.body.now)) (carried payload.now.body.now payload.now.behind.bits)) }
{
    let (preamble, rest) = chips.split_at_mut(2560 * payload.mode.channels());
    let (header, blocks) = rest.split_at_mut(4096);
    write_preamble(preamble, payload.mode);
    write_header(header, word);
    payload.write(blocks);
}

// Writes a frame at the front of the chips and answers how many it has. Refuses, with nothing written, a mode that is none of 1 to 7,
// a MAC header that has not 10 octets, a body of more than 2,048, and chips that are too few, in this order.
// The body is scrambled where it lies while its words are coded, and stands there as before on every way out.
pub fn write_frame(
    mode: u8,
    seed: u8,
    aggregation: bool,
    mac: &[u8],
    body: &mut [u8],
    chips: &mut [u8],
) -> Result<usize, DoorFault>
    ensures answer { result ≡ write_answer mode mac.now body.old chips.old }
    ensures chips { chips.new ≡ write_chips mode seed aggregation mac.now body.old chips.old }
    ensures body { body.new ≡ body.old }
{
    let m = admit(mode, mac.len(), body.len())?;
    let n = frame_length(m, body.len() as u16);
    let phy = Phy {
        seed: seed % 16,
        aggregation,
        length: body.len() as u32,
        reserved: 0,
    };
    let word = word_of(phy, mac.as_array().unwrap());
    let guard = Scrambled::new(body, phy.seed);
    if chips.len() < n {
        return Err(DoorFault::Room);
    }
    let payload = Payload {
        mode: m,
        body: guard.view(),
        behind: guard.behind(),
    };
    write_parts(&mut chips[..n], &word, &payload);
    Ok(n)
}
