// The payload of a frame: its body words are read, mended, and their messages put together.
ghost use Rattle.std.specs.Prelude.{◌≡◌, ◌<◌, ◌≤◌, length as octets};
ghost use Rattle.std.specs.List.{AllByRecursion as Each, AllByRecursion-prop};
ghost use Rattle.std.specs.Coded.{le_prop};
ghost use Rattle.format.specs.Payload.{word_count};
ghost use Rattle.format.specs.Reading.{word_read};
ghost use Rattle.slicer.specs.Slices.{Chip};
ghost use Rattle.account.specs.Reads.{words_read};
ghost use Rattle.account.specs.Answers.{WordAs, BodyAs, PayloadAs};

use faults::PayloadFault;
use format::{Mode, Register, frame_length, mix, word_count};
use mending::{Mender, mend};
use slicer::body_word;
use windows::Window;

// The window that a payload stands in, and what the frame's headers say of it.
#[derive(Clone, Copy)]
pub(crate) struct Payload<'a> {
    pub(crate) window: Window<'a>,
    pub(crate) mode: Mode,
    pub(crate) seed: u8,
    pub(crate) length: u16,
    ghost short: { length ≤ 2048 },
    ghost chips: { Each Chip window.chips.now } by { AllByRecursion-prop Chip (λ c. le_prop) window.chips.now },
}

impl Payload<'_> {
    // Reads body word k, from 0, mends it if need be, and puts its message into its place.
    fn read_word<M: Mender>(
        &self,
        mender: &mut M,
        k: u16,
        body: &mut [u8],
    ) -> Result<usize, PayloadFault>
        requires inside { k < word_count self.now.length }
        requires roomy { self.now.length ≤ octets body.old }
        ensures { WordAs M.Mender.rule mender.old (word_read self.now.mode self.now.length self.now.window.chips.now k) k result body.old body.new mender.new }
    {
        let mut room = [0u8; 240];
        let size = body_word(self.window, self.mode, self.length, k, &mut room);
        let at_place = |cause| PayloadFault::from(cause).at(k as usize + 1);
        let mended = mend(mender, &mut room[..size]).map_err(at_place)?;
        let at = 224 * k as usize;
        body[at..at + size - 16].copy_from_slice(&room[..size - 16]);
        Ok(mended)
    }

    // Reads the body words in line order, up to the first that is not mended: their messages come to fill the body.
    // Answers how many octets were mended.
    fn read_words<M: Mender>(&self, mender: &mut M, body: &mut [u8]) -> Result<usize, PayloadFault>
        requires { octets body.old ≡ self.now.length }
        ensures { BodyAs M.Mender.rule mender.old (words_read self.now.mode self.now.length self.now.window.chips.now) result body.new mender.new }
    {
        let mut total = 0;
        // By number: of a row that is written through its chunks a proof knows nothing afterwards.
        for k in 0..word_count(self.length) {
            total += self.read_word(mender, k, body)?;
        }
        Ok(total)
    }

    // Reads the body into the front of a buffer, if the window holds the whole frame. Answers how many octets were mended.
    pub(crate) fn read<M: Mender>(
        &self,
        mender: &mut M,
        buffer: &mut [u8],
    ) -> Result<usize, PayloadFault>
        requires { 2048 ≤ octets buffer.old }
        ensures { PayloadAs M.Mender.rule mender.old self.now.mode self.now.seed self.now.length self.now.window.chips.now result buffer.old buffer.new mender.new }
    {
        if self.window.len() < frame_length(self.mode, self.length) {
            return Err(PayloadFault::Ends);
        }
        let body = &mut buffer[..self.length as usize];
        let mended = self.read_words(mender, body)?;
        // The scrambler's sequence goes on where the header left it.
        mix(body, Register::scrambler(self.seed).skip(96));
        Ok(mended)
    }
}
