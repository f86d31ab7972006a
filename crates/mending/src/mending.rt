// Mending a word with any mender.
ghost use Rattle.mending.specs.Mending.{Mended};

use crate::mender::Mender;
use words::{Change, WordFault, apply, is_codeword};

// Leaves a codeword as it is. Any other word goes to the mender once, and an accepted proposal is applied: answers how many octets were mended,
// or the cause why none was, and the word is then as before.
pub fn mend<M: Mender>(mender: &mut M, word: &mut [u8]) -> Result<usize, WordFault>
    ensures { Mended M.Mender.rule mender.old word.old result word.new mender.new }
{
    if is_codeword(word) {
        return Ok(0);
    }
    let mut out = [Change::BLANK; 16];
    let n = mender.propose(word, &mut out).ok_or(WordFault::Nothing)?;
    apply(word, &out[..n])?;
    Ok(n)
}
