// Chips, as one decimal digit each.
ghost use Rattle.std.specs.Prelude.{◌≡◌, IfOk, vec_items};
ghost use Rattle.std.specs.Option.{option_map};
ghost use Rattle.spelling.specs.Chips.{chip_value, chips_read};

use crate::list::read_each;
use std::alloc::{AllocError, Global};

fn read_chip(digit: u8) -> Option<u8>
    ensures { result ≡ chip_value digit }
{
    // `char::to_digit` would want a character of each octet first.
    match digit {
        b'0'..=b'9' => Some(digit - b'0'),
        _ => None,
    }
}

// A list of chips. A digit above 1 is no lawful chip, and is passed on.
pub fn read_chips(heap: Global, text: &[u8]) -> Result<Option<Vec<u8>>, AllocError>
    ensures { IfOk result (λ o. option_map vec_items o ≡ chips_read text.now) }
{
    match text {
        b"-" => Ok(Some(Vec::new(heap))),
        b"" => Ok(None),
        _ => read_each(heap, text, |digit| read_chip(*digit)),
    }
}
