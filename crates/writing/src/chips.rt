// Chips, as one decimal digit each.
ghost use Rattle.std.specs.Prelude.{◌≡◌, ◌<◌, ◌≤◌, ◌++◌, Some, length, map, string_bytes, OnOk};
ghost use Rattle.writing.specs.Chips.{chip_char, chips_written};

use crate::text::put;
use std::alloc::AllocError;
use std::{fmt, str};

fn chip_digit(chip: u8) -> u8
    ensures digit { result ≡ chip_char chip }
    ensures ascii { result < 128 }
{
    if chip < 10 { b'0' + chip } else { b'?' }
}

// The digits of at most 64 chips, in a room that is lent for them.
fn digits<'a>(chips: &[u8], room: &'a mut [u8; 64]) -> &'a str
    requires { length chips.now ≤ 64 }
    ensures { result.now ≡ map chip_char chips.now }
{
    let text = &mut room[..chips.len()];
    for (i, digit) in text.iter_mut().enumerate() {
        *digit = chip_digit(chips[i]);
    }
    let Ok(digits) = str::from_utf8(text) else {
        unreachable!();
    };
    digits
}

// A list of chips, and a dash where it is empty. What is above 9 has no digit, and a question mark stands for it.
#[derive(Clone, Copy)]
pub struct Chips<'a>(pub &'a [u8]);

impl fmt::Display for Chips<'_> {
    ghost output = { λ c. Some (chips_written c.0.now) };

    fn fmt<W: fmt::Write>(&self, f: &mut fmt::Formatter<W>) -> fmt::Result {
        if self.0.is_empty() {
            return write!(f, "-");
        }
        // By pieces: a frame has up to 50,176 chips, and each write costs far more than a digit.
        let mut room = [0; 64];
        for chips in self.0.chunks(64) {
            f.write_str(digits(chips, &mut room))?;
        }
        Ok(())
    }
}

// Writes a list of chips behind the text.
pub fn write_chips(out: &mut String, chips: &[u8]) -> Result<(), AllocError>
    ensures { OnOk result (string_bytes out.new ≡ string_bytes out.old ++ chips_written chips.now) }
{
    put(out, Chips(chips))
}
