// The words of a call, one by one.
ghost use Rattle.std.specs.Prelude.{◌≡◌, ◌≤◌, IfOk, vec_items};
ghost use Rattle.calls.specs.Said.{Reads, word_at, number_at, flag_at, room_at, octets_at, chips_at, changes_at, mender_at, counted};

use chosen::{Mending, Named};
use lines::{Stop, Wrong};
use spelling::{count_pieces, piece, read_changes, read_chips, read_number, read_octets};
use std::alloc::Global;
use words::Change;

// The words of a text, numbered from 0, and where to put the lists that they say.
#[derive(Clone, Copy)]
pub(crate) struct Words<'a> {
    pub heap: Global,
    pub text: &'a [u8],
}

impl<'a> Words<'a> {
    // A word; an empty one where there is none.
    pub(crate) fn word(self, k: usize) -> &'a [u8]
        ensures { result.now ≡ word_at self.entry.text.now k }
    {
        piece(self.text, b' ', k).unwrap_or(&[])
    }

    pub(crate) fn number(self, k: usize, most: u32) -> Result<u32, Wrong>
        ensures value { result ≡ number_at most self.entry.text.now k }
        ensures bound { IfOk result (λ n. n ≤ most) }
    {
        read_number(self.word(k), most).ok_or(Wrong::Number)
    }

    // A number up to 255.
    pub(crate) fn small(self, k: usize) -> Result<u8, Wrong>
        ensures { result ≡ number_at 255 self.entry.text.now k }
    {
        Ok(self.number(k, 255)? as u8)
    }

    pub(crate) fn flag(self, k: usize) -> Result<bool, Wrong>
        ensures { result ≡ flag_at self.entry.text.now k }
    {
        match self.word(k) {
            b"0" => Ok(false),
            b"1" => Ok(true),
            _ => Err(Wrong::Number),
        }
    }

    // How much room a buffer has, where the word that says it may be left out.
    pub(crate) fn room(self, k: usize, usual: usize) -> Result<usize, Wrong>
        ensures { result ≡ room_at usual self.entry.text.now k }
    {
        if count_pieces(self.text, b' ') <= k {
            return Ok(usual);
        }
        Ok(self.number(k, 1_000_000)? as usize)
    }

    pub(crate) fn mender(self, k: usize) -> Result<Mending, Wrong>
        ensures { result ≡ mender_at self.entry.text.now k }
    {
        Mending::from_name(self.word(k)).ok_or(Wrong::Mender)
    }

    // A list: each kind has its own reader and its own fault.
    pub(crate) fn octets(self, k: usize) -> Result<Vec<u8>, Stop>
        ensures { Reads vec_items (octets_at self.entry.text.now k) result }
    {
        Ok(read_octets(self.heap, self.word(k))?.ok_or(Wrong::Octets)?)
    }

    pub(crate) fn chips(self, k: usize) -> Result<Vec<u8>, Stop>
        ensures { Reads vec_items (chips_at self.entry.text.now k) result }
    {
        Ok(read_chips(self.heap, self.word(k))?.ok_or(Wrong::Chips)?)
    }

    pub(crate) fn changes(self, k: usize) -> Result<Vec<Change>, Stop>
        ensures { Reads vec_items (changes_at self.entry.text.now k) result }
    {
        Ok(read_changes(self.heap, self.word(k))?.ok_or(Wrong::Changes)?)
    }

    // There is one of two numbers of words.
    pub(crate) fn takes(self, few: usize, many: usize) -> Result<(), Wrong>
        ensures { result ≡ counted few many self.entry.text.now }
    {
        let count = count_pieces(self.text, b' ');
        if count == few || count == many {
            Ok(())
        } else {
            Err(Wrong::Count)
        }
    }
}
