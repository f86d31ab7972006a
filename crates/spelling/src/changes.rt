// Changes, as a place and an octet each, with commas between them.
ghost use Rattle.std.specs.Prelude.{◌≡◌, IfOk, vec_items};
ghost use Rattle.std.specs.Option.{option_map};
ghost use Rattle.spelling.specs.Lists.{each};
ghost use Rattle.spelling.specs.Pieces.{pieces};
ghost use Rattle.spelling.specs.Changes.{change_read, changes_read};

use crate::list::read_each;
use crate::number::read_number;
use crate::octets::read_octet;
use crate::pieces::{count_pieces, piece};
use std::alloc::{AllocError, Global};
use words::Change;

// `place:octet`.
fn read_change(text: &[u8]) -> Option<Change>
    ensures { result ≡ change_read text.now }
{
    if count_pieces(text, b':') != 2 {
        return None;
    }
    let place = read_number(piece(text, b':', 0)?, 999_999_999)?;
    let octet = read_octet(piece(text, b':', 1)?)?;
    Some(Change {
        place: place as usize,
        octet,
    })
}

fn read_list(heap: Global, text: &[u8]) -> Result<Option<Vec<Change>>, AllocError>
    ensures { IfOk result (λ o. option_map vec_items o ≡ each change_read (pieces 44 text.now)) }
{
    let parts: Vec<&[u8]> = text.split(|c| *c == b',').collect(heap)?;
    read_each(heap, parts.as_slice(), |part| read_change(*part))
}

// A list of at most 240 changes.
pub fn read_changes(heap: Global, text: &[u8]) -> Result<Option<Vec<Change>>, AllocError>
    ensures { IfOk result (λ o. option_map vec_items o ≡ changes_read text.now) }
{
    match text {
        b"-" => Ok(Some(Vec::new(heap))),
        b"" => Ok(None),
        _ if count_pieces(text, b',') > 240 => Ok(None),
        _ => read_list(heap, text),
    }
}
