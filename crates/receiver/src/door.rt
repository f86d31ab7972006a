// The door of a read.
ghost use Rattle.std.specs.Prelude.{◌≡◌};
ghost use Rattle.account.specs.Rows.{door_row};
ghost use Rattle.account.specs.Answers.{admitted};

use format::DoorFault;
use windows::first_bad_chip;

// Whether a read passes the door; else the first row of docs/REFUSALS.md that applies.
pub fn admit(n: u8, chips: &[u8], body: &[u8], mac: &[u8]) -> Result<(), DoorFault>
    ensures { result ≡ admitted (door_row n chips.now body.now mac.now) }
{
    if !(1..=4).contains(&n) {
        return Err(DoorFault::Channels);
    }
    if body.len() < 2048 || mac.len() != 10 {
        return Err(DoorFault::Buffers);
    }
    if chips.len() < 2560 * n as usize + 4096 || chips.len() > 65536 {
        return Err(DoorFault::Window);
    }
    if let Some(place) = first_bad_chip(chips) {
        return Err(DoorFault::Chip(place));
    }
    Ok(())
}
