// The search for the codeword next to a word.
ghost use Rattle.std.specs.Prelude.{◌≤◌, length};
ghost use Rattle.mending.specs.Menders.{Nearest, Written, answer};
ghost use Rattle.menders.specs.Repairs.{Proposed};

use crate::decoder::Decoder;
use crate::syndrome::{Powers, syndromes};
use crate::values::Errors;
use arrayvec::ArrayVec;
use words::{Change, accept};

impl<const REACH: usize> Decoder<REACH> {
    // The changes that a locating vector calls for.
    fn candidates(&self, word: &[u8]) -> ArrayVec<Change, 8>
        requires { length word.now ≤ 240 }
        ensures { Proposed REACH word.now result.items }
    {
        let powers = Powers::new();
        let syndromes = syndromes(word, &powers);
        let vector = self.locator(&syndromes);
        Errors::locate(&syndromes, &vector[..REACH + 1], &powers, word.len()).changes()
    }

    // Looks for the codeword that differs from the word in 1 to REACH places: writes the difference to it, with blank changes behind, and answers how many changes it has.
    // Nothing, and a blank buffer, where there is no such codeword.
    pub(crate) fn nearest(&self, word: &[u8], out: &mut [Change; 16]) -> Option<usize>
        ensures nearest { Nearest REACH word.now (answer result out.new) }
        ensures written { Written result out.new }
    {
        *out = [Change::BLANK; 16];
        if !(17..=240).contains(&word.len()) {
            return None;
        }
        let changes = self.candidates(word);
        if changes.len() > REACH || accept(word, &changes).is_err() {
            return None;
        }
        out[..changes.len()].copy_from_slice(&changes);
        Some(changes.len())
    }
}
