// Menders that find the codeword next to a word.
ghost use Rattle.std.specs.Prelude.{◌≤◌};
ghost use Rattle.mending.specs.Menders.{Nearest};
ghost use Rattle.menders.specs.MenderLaws.{nearest_mends_within};

use mending::Mender;
use words::Change;

// Proposes the difference to the codeword that is 1 to REACH places away, if there is one. The code mends no more than 8.
#[derive(Drop)]
pub struct Decoder<const REACH: usize> {
    ghost within: { REACH ≤ 8 },
}

// A decoder for one spoiled octet.
pub type Single = Decoder<1>;

// A decoder for as many spoiled octets as the code can mend.
pub type Full = Decoder<8>;

impl<const REACH: usize> Mender for Decoder<REACH> {
    ghost reach = { λ _. REACH };

    ghost rule = { λ s w a t. Nearest REACH w a };

    ghost mends = { nearest_mends_within REACH (λ s. s.within) };

    fn reach(&self) -> usize {
        REACH
    }

    fn propose(&mut self, word: &[u8], out: &mut [Change; 16]) -> Option<usize> {
        self.nearest(word, out)
    }
}
