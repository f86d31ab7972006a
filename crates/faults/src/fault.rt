// Why a build or a read is turned down.
ghost use Rattle.std.specs.Prelude.{◌≡◌};
ghost use Rattle.faults.specs.declared.fault.HeaderFault.TheVariants.{Word as header_word};
ghost use Rattle.faults.specs.declared.fault.PayloadFault.TheVariants.{Word as payload_word};
ghost use Rattle.faults.specs.declared.fault.Fault.TheVariants.{Door, Preamble, Header, Payload};
ghost use Rattle.faults.specs.Faults.{at_place};

use format::DoorFault;
use words::WordFault;

#[derive(Clone, Copy, PartialEq, Eq, Debug)]
pub enum PreambleFault {
    // A code of the first SFD group is unreadable: its place, from 1.
    Unreadable(usize),
    // SFD1 reads a or b.
    Unsigned,
    // SFD1 reads the inverted b, which announces channel estimation.
    Estimation,
    // SFD2 to SFD4 are in no mode.
    NoMode,
    // The mode's number of channels is not the one named.
    Channels,
}

#[derive(Clone, Copy, PartialEq, Eq, Debug)]
pub enum HeaderFault {
    // The header word is not mended, with the word's cause.
    Word(WordFault),
    // The header check sequence is wrong.
    Check,
    // The reserved bits are not zero.
    Reserved,
    // The length is over 2,048.
    Length,
}

#[derive(Clone, Copy, PartialEq, Eq, Debug)]
pub enum PayloadFault {
    // The window ends before the frame.
    Ends,
    // A body word is not mended: its place, from 1 (0 until `at` puts it in), and the word's cause.
    Word(usize, WordFault),
}

#[derive(Clone, Copy, PartialEq, Eq, Debug)]
pub enum Fault {
    Door(DoorFault),
    Preamble(PreambleFault),
    Header(HeaderFault),
    Payload(PayloadFault),
}

impl From<WordFault> for HeaderFault {
    ghost from_gives = { λ e r. r ≡ header_word e };

    fn from(e: WordFault) -> HeaderFault {
        HeaderFault::Word(e)
    }
}

impl From<WordFault> for PayloadFault {
    ghost from_gives = { λ e r. r ≡ payload_word 0 e };

    fn from(e: WordFault) -> PayloadFault {
        PayloadFault::Word(0, e)
    }
}

impl PayloadFault {
    // The same fault, of the body word at a place, from 1.
    pub fn at(self, place: usize) -> PayloadFault
        ensures { result ≡ at_place place self }
    {
        match self {
            PayloadFault::Ends => PayloadFault::Ends,
            PayloadFault::Word(_, cause) => PayloadFault::Word(place, cause),
        }
    }
}

impl From<DoorFault> for Fault {
    ghost from_gives = { λ e r. r ≡ Door e };

    fn from(e: DoorFault) -> Fault {
        Fault::Door(e)
    }
}

impl From<PreambleFault> for Fault {
    ghost from_gives = { λ e r. r ≡ Preamble e };

    fn from(e: PreambleFault) -> Fault {
        Fault::Preamble(e)
    }
}

impl From<HeaderFault> for Fault {
    ghost from_gives = { λ e r. r ≡ Header e };

    fn from(e: HeaderFault) -> Fault {
        Fault::Header(e)
    }
}

impl From<PayloadFault> for Fault {
    ghost from_gives = { λ e r. r ≡ Payload e };

    fn from(e: PayloadFault) -> Fault {
        Fault::Payload(e)
    }
}
