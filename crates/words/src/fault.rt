// What is refused, and how a refusal is named.
ghost use Rattle.std.specs.Prelude.{◌≡◌, Some};
ghost use Rattle.words.specs.Refusals.{cause_of, coder_refusal, layer_text};

use std::fmt;

// The layer that refuses.
#[derive(Clone, Copy, PartialEq, Eq, Debug)]
pub enum Layer {
    WordCoder,
    Door,
    Preamble,
    Header,
    Payload,
}

impl fmt::Display for Layer {
    ghost output = { λ layer. Some (layer_text layer) };

    fn fmt<W: fmt::Write>(&self, f: &mut fmt::Formatter<W>) -> fmt::Result {
        f.write_str(match self {
            Layer::WordCoder => "word coder",
            Layer::Door => "door",
            Layer::Preamble => "preamble",
            Layer::Header => "header",
            Layer::Payload => "payload",
        })
    }
}

// A refusal as it is reported: its number, its layer, and a place where it has one, else 0.
#[derive(Clone, Copy, PartialEq, Eq, Debug)]
pub struct Refusal {
    pub number: u8,
    pub layer: Layer,
    pub place: usize,
}

// Why the word coder refuses.
#[derive(Clone, Copy, PartialEq, Eq, Debug)]
pub enum CoderFault {
    // The message has not 1 to 224 octets, or the parity buffer not 16.
    Lengths,
}

// Why a proposal is not accepted: the first rule that it breaks.
#[derive(Clone, Copy, PartialEq, Eq, Debug)]
pub enum WordFault {
    // Nothing was proposed.
    Nothing,
    // More than eight changes.
    TooMany,
    // A place outside the word.
    Outside,
    // A place named twice.
    Twice,
    // A change of zero.
    Zero,
    // The changed word is no codeword.
    NoCodeword,
}

impl WordFault {
    // The cause's number, 1 to 6.
    pub fn cause(self) -> u8
        ensures { result ≡ cause_of self }
    {
        match self {
            WordFault::Nothing => 1,
            WordFault::TooMany => 2,
            WordFault::Outside => 3,
            WordFault::Twice => 4,
            WordFault::Zero => 5,
            WordFault::NoCodeword => 6,
        }
    }
}

impl CoderFault {
    pub fn refusal(self) -> Refusal
        ensures { result ≡ coder_refusal self }
    {
        match self {
            CoderFault::Lengths => Refusal {
                number: 20,
                layer: Layer::WordCoder,
                place: 0,
            },
        }
    }
}
