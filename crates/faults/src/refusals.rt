// Each fault's refusal: its number, layer and place, and the word's cause that it carries.
ghost use Rattle.std.specs.Prelude.{◌≡◌};
ghost use Rattle.faults.specs.Faults.{preamble_refusal, header_refusal, payload_refusal, fault_refusal, fault_cause};

use crate::fault::{Fault, HeaderFault, PayloadFault, PreambleFault};
use words::{Layer, Refusal, WordFault};

impl PreambleFault {
    pub fn refusal(self) -> Refusal
        ensures { result ≡ preamble_refusal self }
    {
        let (number, place) = match self {
            PreambleFault::Unreadable(code) => (9, code),
            PreambleFault::Unsigned => (10, 0),
            PreambleFault::Estimation => (11, 0),
            PreambleFault::NoMode => (12, 0),
            PreambleFault::Channels => (13, 0),
        };
        Refusal {
            number,
            layer: Layer::Preamble,
            place,
        }
    }
}

impl HeaderFault {
    pub fn refusal(self) -> Refusal
        ensures { result ≡ header_refusal self }
    {
        let number = match self {
            HeaderFault::Word(_) => 14,
            HeaderFault::Check => 15,
            HeaderFault::Reserved => 16,
            HeaderFault::Length => 17,
        };
        Refusal {
            number,
            layer: Layer::Header,
            place: 0,
        }
    }
}

impl PayloadFault {
    pub fn refusal(self) -> Refusal
        ensures { result ≡ payload_refusal self }
    {
        let (number, place) = match self {
            PayloadFault::Ends => (18, 0),
            PayloadFault::Word(place, _) => (19, place),
        };
        Refusal {
            number,
            layer: Layer::Payload,
            place,
        }
    }
}

impl Fault {
    pub fn refusal(self) -> Refusal
        ensures { result ≡ fault_refusal self }
    {
        match self {
            Fault::Door(e) => e.refusal(),
            Fault::Preamble(e) => e.refusal(),
            Fault::Header(e) => e.refusal(),
            Fault::Payload(e) => e.refusal(),
        }
    }

    // The word's cause, of a header or body word that was not mended.
    pub fn cause(self) -> Option<WordFault>
        ensures { result ≡ fault_cause self }
    {
        match self {
            Fault::Header(HeaderFault::Word(e)) => Some(e),
            Fault::Payload(PayloadFault::Word(_, e)) => Some(e),
            _ => None,
        }
    }
}
