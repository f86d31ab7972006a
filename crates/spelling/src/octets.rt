// Octets, as two hexadecimal digits each.
ghost use Rattle.std.specs.Prelude.{◌≡◌, ◌<◌, IfSome, IfOk, vec_items};
ghost use Rattle.std.specs.Option.{option_map};
ghost use Rattle.spelling.specs.Octets.{hex_value, hex_octet, hex_octets, octet_read, octets_read};

use crate::list::read_each;
use std::alloc::{AllocError, Global};

// The value of a lowercase hexadecimal digit.
fn digit_value(digit: u8) -> Option<u8>
    ensures value { result ≡ hex_value digit }
    ensures small { IfSome result (λ v. v < 16) }
{
    // `char::to_digit` takes upper case too.
    match digit {
        b'0'..=b'9' => Some(digit - b'0'),
        b'a'..=b'f' => Some(digit - b'a' + 10),
        _ => None,
    }
}

// The octet that two digits write.
fn join_digits(high: u8, low: u8) -> Option<u8>
    ensures { result ≡ hex_octet high low }
{
    Some(16 * digit_value(high)? + digit_value(low)?)
}

// One octet.
pub(crate) fn read_octet(text: &[u8]) -> Option<u8>
    ensures { result ≡ octet_read text.now }
{
    let [high, low] = text else {
        return None;
    };
    join_digits(*high, *low)
}

fn read_pairs(heap: Global, text: &[u8]) -> Result<Option<Vec<u8>>, AllocError>
    ensures { IfOk result (λ o. option_map vec_items o ≡ hex_octets text.now) }
{
    let (pairs, rest) = text.as_chunks::<2>();
    if !rest.is_empty() {
        return Ok(None);
    }
    read_each(heap, pairs, |[high, low]| join_digits(*high, *low))
}

// A list of octets.
pub fn read_octets(heap: Global, text: &[u8]) -> Result<Option<Vec<u8>>, AllocError>
    ensures { IfOk result (λ o. option_map vec_items o ≡ octets_read text.now) }
{
    match text {
        b"-" => Ok(Some(Vec::new(heap))),
        b"" => Ok(None),
        _ => read_pairs(heap, text),
    }
}
