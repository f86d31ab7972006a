// The header: its word, and the word spread over chips.
ghost use Rattle.std.specs.Prelude.{◌≡◌, length};
ghost use Rattle.format.specs.Header.{phy_octets, header_message, header_word};
ghost use Rattle.format.specs.Frame.{header_chips};

use crate::word::write_word;
use format::{Phy, Register, header_check, mix, pack};

// The first 16 octets of the header word: the PHY header plain, the MAC header and its check scrambled.
fn message_of(h: Phy, mac: &[u8; 10]) -> [u8; 16]
    ensures { result ≡ header_message h.seed (phy_octets h) mac.now }
{
    let mut message = [0u8; 16];
    let (front, check) = message.split_at_mut(14);
    let (phy, fields) = front.split_at_mut(4);
    phy.copy_from_slice(&pack(h));
    fields.copy_from_slice(mac);
    let sum = header_check(front, &mut [false; 112]).unwrap();
    check.copy_from_slice(&sum);
    mix(&mut message[4..], Register::scrambler(h.seed));
    message
}

// The header word: the message and its parity.
#[tactic(auto, unfolding(format::specs::Header::header_word))]
pub(crate) fn word_of(h: Phy, mac: &[u8; 10]) -> [u8; 32]
    ensures { result ≡ header_word h mac.now }
{
    let mut word = [0u8; 32];
    write_word(&mut word, &message_of(h, mac));
    word
}

// Writes the header word: each bit over 16 chips, with the spreader's sequence added.
pub(crate) fn write_header(chips: &mut [u8], word: &[u8; 32])
    requires { length chips.old ≡ 4096 }
    ensures { chips.new ≡ header_chips word.now }
{
    let mut spreader = Register::spreader();
    for (i, chip) in chips.iter_mut().enumerate() {
        *chip = word[i / 128] >> (i / 16 % 8) & 1 ^ spreader.next();
    }
}
