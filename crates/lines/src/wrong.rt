// What can be wrong with a line.
ghost use Rattle.std.specs.Prelude.{◌≡◌, Some};
ghost use Rattle.lines.specs.Wrongs.{wrong_text};
ghost use Rattle.lines.specs.declared.wrong.Stop.TheVariants.{Wrong as stop_wrong, Memory};

use std::alloc::AllocError;
use std::fmt;

#[derive(Debug, Clone, Copy, PartialEq, Eq)]
pub enum Wrong {
    // The first word is no call.
    Call,
    // The call has not as many words as it takes.
    Count,
    Number,
    Octets,
    Chips,
    Changes,
    Mender,
    // A call on a station before the first is opened.
    Station,
}

impl Wrong {
    pub fn text(self) -> &'static str
        ensures { result.now ≡ wrong_text self }
    {
        match self {
            Wrong::Call => "unknown call",
            Wrong::Count => "wrong number of words",
            Wrong::Number => "bad number",
            Wrong::Octets => "bad octets",
            Wrong::Chips => "bad chips",
            Wrong::Changes => "bad changes",
            Wrong::Mender => "bad mender",
            Wrong::Station => "no station is open",
        }
    }
}

impl fmt::Display for Wrong {
    ghost output = { λ w. Some (wrong_text w) };

    fn fmt<W: fmt::Write>(&self, f: &mut fmt::Formatter<W>) -> fmt::Result {
        f.write_str(self.text())
    }
}

// Why a line is not carried out: it is wrong, or there is no memory for it.
#[derive(Debug, Clone, Copy, PartialEq, Eq)]
pub enum Stop {
    Wrong(Wrong),
    Memory(AllocError),
}

impl From<AllocError> for Stop {
    ghost from_gives = { λ e r. r ≡ Memory e };

    fn from(e: AllocError) -> Stop {
        Stop::Memory(e)
    }
}

impl From<Wrong> for Stop {
    ghost from_gives = { λ w r. r ≡ stop_wrong w };

    fn from(w: Wrong) -> Stop {
        Stop::Wrong(w)
    }
}
