// The calls on parts of a window.
ghost use Rattle.std.specs.Prelude.{◌≡◌, IfOk};
ghost use Rattle.answers.specs.Texts.{answer_text, part_text};
ghost use Rattle.script.specs.Windows.{header_text, block_text};

use answers::Answer;
use std::alloc::{AllocError, Global};
use windows::{Part, Window};

fn part_answer(heap: Global, part: Part<'_>) -> Result<Answer, AllocError>
    ensures { IfOk result (λ a. answer_text a ≡ part_text part.entry.place part.entry.chips.now) }
{
    Ok(Answer::Part(part.place, Vec::from_slice(heap, part.chips)?))
}

pub(crate) fn header_part(heap: Global, channels: u8, chips: &[u8]) -> Result<Answer, AllocError>
    ensures { IfOk result (λ a. answer_text a ≡ header_text channels chips.now) }
{
    match Window::new(chips).header(channels) {
        Ok(part) => part_answer(heap, part),
        Err(fault) => Ok(Answer::Refused(fault.refusal(), None, None)),
    }
}

pub(crate) fn block_part(
    heap: Global,
    mode: u8,
    number: usize,
    chips: &[u8],
) -> Result<Answer, AllocError>
    ensures { IfOk result (λ a. answer_text a ≡ block_text mode number chips.now) }
{
    match Window::new(chips).block(mode, number) {
        Ok(Some(part)) => part_answer(heap, part),
        Ok(None) => Ok(Answer::Nothing),
        Err(fault) => Ok(Answer::Refused(fault.refusal(), None, None)),
    }
}
