// What each mode is.
ghost use Rattle.std.specs.Prelude.{◌≡◌};
ghost use Rattle.std.specs.Option.{ok_or};
ghost use Rattle.format.specs.declared.fault.DoorFault.TheVariants.{Mode as NoMode};
ghost use Rattle.format.specs.Modes.{row, mode_of, mode_by};

use crate::fault::DoorFault;
use crate::mode::Mode;

// The mode of a number, 1 to 7.
impl TryFrom<u8> for Mode {
    type Error = DoorFault;

    ghost try_from_gives = { λ number r. r ≡ ok_or (mode_of number) NoMode };

    fn try_from(number: u8) -> Result<Mode, DoorFault> {
        match number {
            1 => Ok(Mode::M1),
            2 => Ok(Mode::M2),
            3 => Ok(Mode::M3),
            4 => Ok(Mode::M4),
            5 => Ok(Mode::M5),
            6 => Ok(Mode::M6),
            7 => Ok(Mode::M7),
            _ => Err(DoorFault::Mode),
        }
    }
}

impl Mode {
    // The mode that the signs of SFD2 to SFD4 tell; true is minus.
    pub fn from_signs(second: bool, third: bool, fourth: bool) -> Option<Mode>
        ensures { result ≡ mode_by second third fourth }
    {
        match (second, third, fourth) {
            (false, false, false) => Some(Mode::M1),
            (false, false, true) => Some(Mode::M2),
            (false, true, false) => Some(Mode::M3),
            (false, true, true) => Some(Mode::M4),
            (true, false, false) => Some(Mode::M5),
            (true, false, true) => Some(Mode::M6),
            (true, true, false) => Some(Mode::M7),
            (true, true, true) => None,
        }
    }

    // What `try_from` turns back.
    pub fn number(self) -> u8
        ensures { result ≡ (row self).number }
    {
        match self {
            Mode::M1 => 1,
            Mode::M2 => 2,
            Mode::M3 => 3,
            Mode::M4 => 4,
            Mode::M5 => 5,
            Mode::M6 => 6,
            Mode::M7 => 7,
        }
    }

    // How many channels are bonded.
    pub fn channels(self) -> usize
        ensures { result ≡ (row self).channels }
    {
        match self {
            Mode::M1 => 1,
            Mode::M2 | Mode::M3 => 2,
            Mode::M4 | Mode::M5 => 3,
            Mode::M6 | Mode::M7 => 4,
        }
    }

    // How often a payload bit is sent.
    pub fn spread(self) -> usize
        ensures { result ≡ (row self).spread }
    {
        match self {
            Mode::M1 | Mode::M3 | Mode::M5 | Mode::M7 => 1,
            Mode::M2 | Mode::M4 | Mode::M6 => 2,
        }
    }

    // Which of SFD2 to SFD4 are inverted.
    pub fn minus(self) -> [bool; 3]
        ensures { result ≡ (row self).minus }
    {
        match self {
            Mode::M1 => [false, false, false],
            Mode::M2 => [false, false, true],
            Mode::M3 => [false, true, false],
            Mode::M4 => [false, true, true],
            Mode::M5 => [true, false, false],
            Mode::M6 => [true, false, true],
            Mode::M7 => [true, true, false],
        }
    }
}
