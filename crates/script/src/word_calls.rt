// The calls on words.
ghost use Rattle.std.specs.Prelude.{◌≡◌, IfOk};
ghost use Rattle.answers.specs.Texts.{answer_text};
ghost use Rattle.script.specs.Words.{encode_text, codeword_text, hcs_text, accept_text, Proposes, MendsAs};

use crate::buffer::Buffer;
use answers::Answer;
use buffers::after_encode;
use chosen::Mending;
use format::header_check;
use mending::{Mender, mend};
use std::alloc::{AllocError, Global};
use words::{Change, apply, encode, is_codeword};

pub(crate) fn encode_message(
    heap: Global,
    message: &[u8],
    room: usize,
) -> Result<Answer, AllocError>
    ensures { IfOk result (λ a. answer_text a ≡ encode_text message.now room) }
{
    let mut parity = Buffer::filled(heap, 0xee, room)?;
    match encode(message, parity.after.as_mut_slice()) {
        Ok(()) => Ok(Answer::Parity(parity.after)),
        Err(fault) => {
            let buffers = after_encode(parity.looks());
            Ok(Answer::Refused(fault.refusal(), None, Some(buffers)))
        }
    }
}

pub(crate) fn judge_word(word: &[u8]) -> Answer
    ensures { answer_text result ≡ codeword_text word.now }
{
    Answer::Codeword(is_codeword(word))
}

pub(crate) fn check_octets(heap: Global, octets: &[u8]) -> Result<Answer, AllocError>
    ensures { IfOk result (λ a. answer_text a ≡ hcs_text octets.now) }
{
    // Eight for each octet, as many as the check wants.
    let mut bits = vec![in heap; [false; 8]; octets.len()]?;
    let hcs = header_check(octets, bits.as_mut_slice().as_flattened_mut()).unwrap();
    Ok(Answer::Hcs(hcs))
}

pub(crate) fn propose(heap: Global, mut mender: Mending, word: &[u8]) -> Result<Answer, AllocError>
    ensures { IfOk result (λ a. Proposes mender word.now (answer_text a)) }
{
    let mut out = [Change::BLANK; 16];
    match mender.propose(word, &mut out) {
        Some(n) => Ok(Answer::Proposed(Vec::from_slice(heap, &out[..n])?)),
        None => Ok(Answer::NotProposed),
    }
}

pub(crate) fn accept(mut word: Vec<u8>, changes: &[Change]) -> Answer
    ensures { answer_text result ≡ accept_text word.items changes.now }
{
    match apply(word.as_mut_slice(), changes) {
        Ok(()) => Answer::Accepted(word),
        Err(fault) => Answer::Unmended(fault),
    }
}

pub(crate) fn mend_word(mut mender: Mending, mut word: Vec<u8>) -> Answer
    ensures { MendsAs mender word.items (answer_text result) }
{
    match mend(&mut mender, word.as_mut_slice()) {
        Ok(0) => Answer::Whole,
        Ok(_) => Answer::Mended(word),
        Err(fault) => Answer::Unmended(fault),
    }
}
