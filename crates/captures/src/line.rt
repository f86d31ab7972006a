// One line of a capture: a channel count, a space, and a window's chips.
ghost use Rattle.std.specs.Prelude.{◌≡◌, ◌-◌, map, IfOk, Some, MatchResult};
ghost use Rattle.captures.specs.Windows.{with_digit, channel_count, chip_digit, bad_digit, line_fault, WindowIn};

use crate::fault::LineFault;
use crate::text::split_once;
use std::alloc::{AllocError, Global};

// A count with one more decimal digit behind it; none where that passes 255, or the octet is no digit.
fn with_digit(count: u8, octet: u8) -> Option<u8>
    ensures { result ≡ with_digit count octet }
{
    if !octet.is_ascii_digit() {
        return None;
    }
    u8::try_from(10 * u16::from(count) + u16::from(octet - b'0')).ok()
}

// A number up to 255 in decimal digits.
fn channel_count(field: &[u8]) -> Option<u8>
    ensures { result ≡ channel_count field.now }
{
    if field.is_empty() {
        return None;
    }
    let mut count = 0;
    // Up to the first octet that is no digit: a line may be long, and hold no window.
    for d in field {
        count = with_digit(count, *d)?;
    }
    Some(count)
}

fn is_chip_digit(octet: u8) -> bool
    ensures { result ≡ chip_digit octet }
{
    octet == b'0' || octet == b'1'
}

// The place of the first digit that is neither 0 nor 1.
fn first_bad_digit(digits: &[u8]) -> Option<usize>
    ensures { result ≡ bad_digit digits.now }
{
    digits.iter().position(|d| !is_chip_digit(*d))
}

// A window as a line writes it: how many channels it has, and its chips as digits.
#[derive(Debug, Clone, Copy, PartialEq, Eq)]
pub struct Written<'a> {
    pub channels: u8,
    pub digits: &'a [u8],
}

impl Written<'_> {
    // The chips that the digits stand for.
    pub fn chips(self, heap: Global) -> Result<Vec<u8>, AllocError>
        ensures { IfOk result (λ v. v.items ≡ map (λ d. d - 48) self.entry.digits.now) }
    {
        self.digits
            .iter()
            .map(|d| d.saturating_sub(b'0'))
            .collect(heap)
    }
}

// The window that a line holds, or the first thing that is wrong with the line.
pub fn read_window(line: &[u8]) -> Result<Written<'_>, LineFault>
    ensures { MatchResult result (λ w. WindowIn line.now w.channels w.digits.now) (λ e. line_fault line.now ≡ Some e) }
{
    let (count, digits) = split_once(line, b' ');
    let channels = channel_count(count).ok_or(LineFault::NoCount)?;
    if digits.is_empty() {
        return Err(LineFault::NoChips);
    }
    if digits.len() > 65536 {
        return Err(LineFault::TooLong);
    }
    match first_bad_digit(digits) {
        Some(place) => Err(LineFault::BadChip(place)),
        None => Ok(Written { channels, digits }),
    }
}
