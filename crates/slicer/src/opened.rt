// What a header word says.
ghost use Rattle.std.specs.Prelude.{◌≡◌, take, drop, Decides, ◌==◌};
ghost use Rattle.elements.specs.Octets.{octets as octet_ops};
ghost use Rattle.polynomials.specs.Differences.{differing};
ghost use Rattle.format.specs.Header.{hcs};
ghost use Rattle.format.specs.Reading.{phy_read, mac_read, hcs_read};
ghost use Rattle.slicer.specs.Headers.{hcs_asked, header_right};

use format::Phy;
use format::hcs::header_check;
use format::header::unpack;
use format::sequence::{Register, mix};
use polynomials::differences;

// A header's fields, and whether its check sequence is right: the fields are told whatever it is.
#[derive(Clone, Copy, Debug)]
pub struct Opened {
    pub phy: Phy,
    pub mac: [u8; 10],
    pub right: bool,
}

// Whether the check sequence at a message's end is that of the headers before it.
fn is_right(message: &[u8; 16]) -> bool
    ensures { result ≡ (differing octet_ops (drop 14 message.now) (hcs (take 14 message.now)) == 0) }
{
    let mut room = [false; 112];
    let asked = header_check(&message[..14], &mut room).unwrap();
    differences(&message[14..], &asked) == 0
}

// The fields of a header word, which need not be a codeword.
pub fn open_header(word: &[u8; 32]) -> Opened
    ensures phy { result.phy ≡ phy_read word.now }
    ensures mac { result.mac ≡ mac_read word.now }
    ensures right { result.right ≡ header_right word.now }
    ensures decides { Decides result.right (hcs_read word.now ≡ hcs_asked word.now) }
{
    let mut message = *word.first_chunk::<16>().unwrap();
    let phy = unpack(message.first_chunk().unwrap());
    // Behind the PHY header, which is sent plain, the sequence is taken off.
    mix(&mut message[4..], Register::scrambler(phy.seed));
    Opened {
        phy,
        mac: *message[4..].first_chunk().unwrap(),
        right: is_right(&message),
    }
}
