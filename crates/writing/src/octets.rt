// Octets, as two hexadecimal digits each.
ghost use Rattle.std.specs.Prelude.{◌≡◌, ◌<◌, ◌≤◌, ◌++◌, Some, length, string_bytes, OnOk};
ghost use Rattle.writing.specs.Octets.{hex_char, octet_written, octets_hex, octets_written};

use crate::text::put;
use std::alloc::AllocError;
use std::{fmt, str};

fn hex_digit(value: u8) -> u8
    requires { value < 16 }
    ensures { result ≡ hex_char value }
{
    if value < 10 {
        b'0' + value
    } else {
        b'a' + value - 10
    }
}

fn pair(octet: u8) -> [u8; 2]
    ensures { result ≡ octet_written octet }
{
    [hex_digit(octet / 16), hex_digit(octet % 16)]
}

// The digits of at most 32 octets, in a room that is lent for them.
fn digits<'a>(octets: &[u8], room: &'a mut [[u8; 2]; 32]) -> &'a str
    requires { length octets.now ≤ 32 }
    ensures { result.now ≡ octets_hex octets.now }
{
    let pairs = &mut room[..octets.len()];
    for (i, digits) in pairs.iter_mut().enumerate() {
        *digits = pair(octets[i]);
    }
    let Ok(digits) = str::from_utf8(pairs.as_flattened()) else {
        unreachable!();
    };
    digits
}

// A list of octets, and a dash where it is empty.
#[derive(Clone, Copy)]
pub struct Octets<'a>(pub &'a [u8]);

impl fmt::Display for Octets<'_> {
    ghost output = { λ o. Some (octets_written o.0.now) };

    fn fmt<W: fmt::Write>(&self, f: &mut fmt::Formatter<W>) -> fmt::Result {
        if self.0.is_empty() {
            return write!(f, "-");
        }
        // By pieces, since each write costs far more than a digit.
        let mut room = [[0; 2]; 32];
        for octets in self.0.chunks(32) {
            f.write_str(digits(octets, &mut room))?;
        }
        Ok(())
    }
}

// Writes a list of octets behind the text.
pub fn write_octets(out: &mut String, octets: &[u8]) -> Result<(), AllocError>
    ensures { OnOk result (string_bytes out.new ≡ string_bytes out.old ++ octets_written octets.now) }
{
    put(out, Octets(octets))
}
