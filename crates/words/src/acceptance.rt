// Which proposals are accepted, and what becomes of a word.
ghost use Rattle.std.specs.Prelude.{◌≡◌, ◌==◌, true, not, length, nat_lt};
ghost use Rattle.std.specs.List.{list_all, list_any};
ghost use Rattle.words.specs.Coder.{is_codeword};
ghost use Rattle.words.specs.Changes.{changed, inside, once, fault_of, verdict, mended};

use crate::change::Change;
use crate::coder::is_codeword;
use crate::fault::WordFault;

fn all_inside(length: usize, changes: &[Change]) -> bool
    ensures { result ≡ list_all (λ c. nat_lt c.place length) changes.now }
{
    changes.iter().all(|c| c.place < length)
}

fn is_named(place: usize, changes: &[Change]) -> bool
    ensures { result ≡ list_any (λ c. c.place == place) changes.now }
{
    changes.iter().any(|c| c.place == place)
}

#[tactic(auto, using(crate::proofs::Scans::named_is))]
fn all_once(changes: &[Change]) -> bool
    ensures { result ≡ once changes.now }
{
    let mut left = changes;
    while let [c, rest @ ..] = left {
        if is_named(c.place, rest) {
            return false;
        }
        left = rest;
    }
    true
}

fn all_nonzero(changes: &[Change]) -> bool
    ensures { result ≡ list_all (λ c. not (c.octet == 0)) changes.now }
{
    changes.iter().all(|c| c.octet != 0)
}

// Adds each change's octet at its place.
#[tactic(auto, using(crate::proofs::Scans::inside_here, crate::proofs::Scans::changed_more, crate::proofs::Scans::changed_none))]
fn put(word: &mut [u8], changes: &[Change])
    requires { inside (length word.old) changes.now ≡ true }
    ensures { word.new ≡ changed word.old changes.now }
{
    for c in changes {
        word[c.place] ^= c.octet;
    }
}

// Whether the changes make a codeword of the word.
#[tactic(auto, using(crate::proofs::Scans::too_long, crate::proofs::Scans::length_changed))]
fn makes_codeword(word: &[u8], changes: &[Change]) -> bool
    requires { inside (length word.now) changes.now ≡ true }
    ensures { result ≡ is_codeword (changed word.now changes.now) }
{
    let mut room = [0; 240];
    if word.len() > room.len() {
        return false;
    }
    let copy = &mut room[..word.len()];
    copy.copy_from_slice(word);
    put(copy, changes);
    is_codeword(copy)
}

// Whether a proposal is accepted for a word; else the first rule that it breaks.
#[tactic(auto, using(crate::proofs::Scans::inside_is, crate::proofs::Scans::nonzero_is))]
pub fn accept(word: &[u8], changes: &[Change]) -> Result<(), WordFault>
    ensures { result ≡ verdict (fault_of word.now changes.now) }
{
    if changes.is_empty() {
        return Err(WordFault::Nothing);
    }
    if changes.len() > 8 {
        return Err(WordFault::TooMany);
    }
    if !all_inside(word.len(), changes) {
        return Err(WordFault::Outside);
    }
    if !all_once(changes) {
        return Err(WordFault::Twice);
    }
    if !all_nonzero(changes) {
        return Err(WordFault::Zero);
    }
    if !makes_codeword(word, changes) {
        return Err(WordFault::NoCodeword);
    }
    Ok(())
}

// Makes the changes in the word if they are accepted; else leaves the word as it was, with the cause.
pub fn apply(word: &mut [u8], changes: &[Change]) -> Result<(), WordFault>
    ensures answer { result ≡ verdict (fault_of word.old changes.now) }
    ensures word { word.new ≡ mended word.old changes.now }
{
    accept(word, changes)?;
    put(word, changes);
    Ok(())
}
