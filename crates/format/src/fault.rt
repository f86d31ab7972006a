// What is refused at the door, before anything is read or written.
ghost use Rattle.std.specs.Prelude.{◌≡◌};
ghost use Rattle.format.specs.Refusals.{door_refusal};

use words::{Layer, Refusal};

// Why a call is refused.
#[derive(Clone, Copy, PartialEq, Eq, Debug)]
pub enum DoorFault {
    // The mode is not 1 to 7.
    Mode,
    // The MAC header has not 10 octets.
    Mac,
    // The body is too long.
    Body,
    // The buffer has no room for the frame.
    Room,
    // The channels are not 1 to 4.
    Channels,
    // The body buffer has under 2,048 octets, or the MAC header buffer has not 10.
    Buffers,
    // The window is too short or too long.
    Window,
    // The chip at a place is neither dark nor lit.
    Chip(usize),
}

impl DoorFault {
    pub fn refusal(self) -> Refusal
        ensures { result ≡ door_refusal self }
    {
        let (number, place) = match self {
            DoorFault::Mode => (1, 0),
            DoorFault::Mac => (2, 0),
            DoorFault::Body => (3, 0),
            DoorFault::Room => (4, 0),
            DoorFault::Channels => (5, 0),
            DoorFault::Buffers => (6, 0),
            DoorFault::Window => (7, 0),
            DoorFault::Chip(place) => (8, place),
        };
        Refusal {
            number,
            layer: Layer::Door,
            place,
        }
    }
}
