// The word coder, and whether a word is a codeword.
ghost use Rattle.std.specs.Prelude.{◌≡◌, ◌&&◌, length, if◌then◌else◌, Ok, Err, ◌==◌};
ghost use Rattle.coding.specs.Codewords.{parity as parity_of};
ghost use Rattle.words.specs.Coder.{codable, is_codeword};
ghost use Rattle.words.specs.declared.fault.CoderFault.TheVariants.{Lengths};

use crate::fault::CoderFault;
use crate::parity::Parity;
use polynomials::{checksum, differences};

// Writes the parity of a message of 1 to 224 octets into a buffer of 16; refuses, with nothing written, at other lengths.
#[tactic(auto, unfolding(coding::specs::Codewords::parity))]
pub fn encode(message: &[u8], parity: &mut [u8]) -> Result<(), CoderFault>
    ensures answer { result ≡ (if codable message.now && length parity.old == 16 then Ok tt else Err Lengths) }
    ensures parity { parity.new ≡ (if codable message.now && length parity.old == 16 then parity_of message.now else parity.old) }
{
    if !(1..=224).contains(&message.len()) {
        return Err(CoderFault::Lengths);
    }
    let mut row = [0; 17];
    let mut divisor = [0; 17];
    // None where the parity buffer has another length than the check.
    checksum::<Parity>(message, parity, &mut row, &mut divisor).ok_or(CoderFault::Lengths)?;
    Ok(())
}

// Whether a row is a codeword: of 17 to 240 octets, the last 16 of which are the parity of the others.
pub fn is_codeword(word: &[u8]) -> bool
    ensures { result ≡ is_codeword word.now }
{
    let Some((message, sent)) = word.split_last_chunk::<16>() else {
        return false;
    };
    let mut parity = [0; 16];
    encode(message, &mut parity).is_ok() && differences(&parity, sent) == 0
}
