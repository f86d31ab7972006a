// The header word: mended, opened and judged.
ghost use Rattle.std.specs.Prelude.{◌≡◌};
ghost use Rattle.format.specs.Reading.{despread};
ghost use Rattle.account.specs.Rows.{header_row};
ghost use Rattle.account.specs.Answers.{fields, HeaderAs};

use account::Head;
use faults::HeaderFault;
use mending::{Mender, mend};
use slicer::{Opened, header_word, open_header};
use windows::Part;

// A header word's fields, if its check is right, its reserved bits are zero and its length is one that can be sent.
fn judge(word: &[u8; 32], mended: usize) -> Result<Head, HeaderFault>
    ensures { result ≡ fields word.now mended (header_row word.now) }
{
    let Opened { phy, mac, right } = open_header(word);
    if !right {
        return Err(HeaderFault::Check);
    }
    if phy.reserved != 0 {
        return Err(HeaderFault::Reserved);
    }
    if phy.length > 2048 {
        return Err(HeaderFault::Length);
    }
    Ok(Head { phy, mac, mended })
}

// Reads a header from its chips: mends the word if need be, and judges it.
pub fn read_header<M: Mender>(mender: &mut M, part: Part<'_>) -> Result<Head, HeaderFault>
    ensures { HeaderAs M.Mender.rule mender.old (despread part.entry.chips.now) result mender.new }
{
    let mut word = header_word(part);
    let mended = mend(mender, &mut word)?;
    judge(&word, mended)
}
