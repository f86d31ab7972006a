// The payload: body words, stuff bits and blocks.
ghost use Rattle.std.specs.Prelude.{◌≡◌, ◌-◌, ◌*◌, ◌<◌, ◌≤◌, ◌++◌, length, replicate, slice_index};
ghost use Rattle.format.specs.Sequences.{mixed};
ghost use Rattle.format.specs.Bits.{line};
ghost use Rattle.format.specs.Payload.{word_count, coded_octets, coded, repeated, blocks, block_count};
ghost use Rattle.format.specs.Modes.{Row, row};
ghost use Rattle.frames.specs.Blocks.{block_bits, carried};

use crate::word::write_word;
use format::{Mode, Register, block_count, mix, word_count};

// Writes the words of a body: 224 octets a message, the last may have fewer.
fn write_words(octets: &mut [u8], body: &[u8])
    requires { length octets.old ≡ coded_octets (length body.now) }
    ensures { octets.new ≡ coded (word_count (length body.now)) body.now }
{
    // Into ranges, here and below: of a row that is written through its chunks a proof knows nothing afterwards.
    for (k, message) in body.chunks(224).enumerate() {
        write_word(&mut octets[240 * k..240 * k + message.len() + 16], message);
    }
}

// The octets whose bits the blocks carry. 2,223 octets hold the 35 · 508 bits of the longest payload.
#[derive(Drop)]
struct Carried([u8; 2223]);

impl Carried {
    // Bit q of a block, its pilots too.
    fn bit(&self, block: usize, q: usize) -> u8
        requires { (block < 35) × (q < 512) }
        ensures { result ≡ slice_index (block_bits block (line self.now.0)) q }
    {
        if q >= 508 {
            return ((q + 1) % 2) as u8;
        }
        let k = 508 * block + q;
        self.0[k / 8] >> (k % 8) & 1
    }

    // Writes a block, each bit as often as it is sent.
    fn write_block(&self, chips: &mut [u8], block: usize, spread: usize)
        requires { (block < 35) × (0 < spread) × (length chips.old ≡ 512 * spread) }
        ensures { chips.new ≡ repeated spread (block_bits block (line self.now.0)) }
    {
        for (j, chip) in chips.iter_mut().enumerate() {
            *chip = self.bit(block, j / spread);
        }
    }
}

// The payload of a frame: its body as it stands scrambled.
#[derive(Clone, Copy)]
pub(crate) struct Payload<'a> {
    pub(crate) mode: Mode,
    pub(crate) body: &'a [u8],
    // The scrambler's register behind the body.
    pub(crate) behind: Register,
    ghost short: { length body.now ≤ 2048 },
}

impl Payload<'_> {
    // The words of the body, and behind them zeros scrambled from where the body left the sequence, up to the end:
    // the blocks take as many of their bits as they want for stuff bits.
    fn carried(&self) -> Carried
        ensures { result.0 ≡ coded (word_count (length self.now.body.now)) self.now.body.now ++ mixed self.now.behind.bits (replicate (2223 - coded_octets (length self.now.body.now)) 0) }
    {
        let mut octets = [0u8; 2223];
        let words = self.body.len() + 16 * word_count(self.body.len() as u16) as usize;
        let (coded, stuff) = octets.split_at_mut(words);
        write_words(coded, self.body);
        mix(stuff, self.behind);
        Carried(octets)
    }

    // Writes the payload, block behind block.
    pub(crate) fn write(&self, chips: &mut [u8])
        requires { length chips.old ≡ 512 * (row self.now.mode).spread * block_count (length self.now.body.now) }
        ensures { chips.new ≡ blocks (row self.now.mode).spread (block_count (length self.now.body.now)) (carried self.now.body.now self.now.behind.bits) }
    {
        let carried = self.carried();
        let spread = self.mode.spread();
        for block in 0..block_count(self.body.len() as u16) {
            let part = &mut chips[512 * spread * block..512 * spread * (block + 1)];
            carried.write_block(part, block, spread);
        }
    }
}
