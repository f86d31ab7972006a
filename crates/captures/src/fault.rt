// Why a line holds no window.
ghost use Rattle.std.specs.Prelude.{Some};
ghost use Rattle.captures.specs.Windows.{line_fault_text};

use std::fmt;

#[derive(Debug, Clone, Copy, PartialEq, Eq)]
pub enum LineFault {
    // The line does not begin with a number up to 255 and a space, or the line's end.
    NoCount,
    // Nothing stands behind the channel count.
    NoChips,
    // More than 65,536 chips.
    TooLong,
    // A chip that is neither 0 nor 1: the first one's place, from 0.
    BadChip(usize),
}

impl fmt::Display for LineFault {
    ghost output = { λ e. Some (line_fault_text e) };

    fn fmt<W: fmt::Write>(&self, f: &mut fmt::Formatter<W>) -> fmt::Result {
        match self {
            LineFault::NoCount => write!(f, "no channel count"),
            LineFault::NoChips => write!(f, "no chips"),
            LineFault::TooLong => write!(f, "longer than any window"),
            LineFault::BadChip(place) => { write!(f, "a chip that is neither 0 nor 1, at {place}") }
        }
    }
}
