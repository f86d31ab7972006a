// The slicer: turns the chips of parts into octets.
ghost use Rattle.std.specs.Prelude.{◌≡◌, ◌-◌, ◌^◌, ◌<◌, ◌≤◌, ◌++◌, length, replicate};
ghost use Rattle.std.specs.List.{AllByRecursion as Each};
ghost use Rattle.format.specs.Sequences.{value, drawn, after};
ghost use Rattle.format.specs.Frame.{added};
ghost use Rattle.format.specs.Reading.{ones, despread, payload_bit, payload_octet, word_length, word_read};
ghost use Rattle.slicer.specs.Slices.{bits_from, Chip, masked};

use format::Mode;
use format::sequence::Register;
use windows::{Part, Window};

// The sum of at most 16 chips, with the sequence added.
#[tactic(auto, using(crate::proofs::Sums::sum_step, std::proofs::lemmas::Nat::xor_lt, format::proofs::Registers::after_step, std::proofs::lemmas::List::take_all), unfolding(format::specs::Sequences::after, format::specs::Sequences::drawn, format::specs::Frame::added, format::specs::Reading::ones))]
fn lit(chips: &[u8], register: &mut Register) -> u32
    requires { length chips.now ≤ 16 }
    ensures sum { result ≡ ones (added chips.now (drawn (length chips.now) register.old.bits)) }
    ensures bits { register.new.bits ≡ after (length chips.now) register.old.bits }
{
    let mut sum = 0;
    for c in chips {
        sum += (*c ^ register.next()) as u32;
    }
    sum
}

// The octet of at most 128 chips: each bit is one where at least 9 of its 16 chips are.
fn voted(chips: &[u8], register: &mut Register) -> u8
    requires { length chips.now ≤ 128 }
    ensures octet { result ≡ value (bits_from 8 chips.now register.old.bits) }
    ensures bits { register.new.bits ≡ after (length chips.now) register.old.bits }
{
    let mut octet = 0;
    for (k, group) in chips.chunks(16).enumerate() {
        octet |= ((lit(group, register) >= 9) as u8) << k;
    }
    octet
}

// The header word, as the majorities of its chips tell it.
pub fn header_word(part: Part<'_>) -> [u8; 32]
    ensures { result ≡ despread part.entry.chips.now }
{
    let mut word = [0u8; 32];
    let mut register = Register::spreader();
    // The word is written by index: of a row that is written through `zip` a proof knows nothing afterwards.
    for (j, chips) in part.chips.chunks(128).take(32).enumerate() {
        word[j] = voted(chips, &mut register);
    }
    word
}

// The payload of a window's frame.
#[derive(Clone, Copy)]
struct Payload<'a> {
    window: Window<'a>,
    mode: Mode,
}

impl Payload<'_> {
    // Bit k; zero where its block is not wholly in the window.
    #[tactic(auto, using(crate::proofs::Payloads::bit_none, crate::proofs::Payloads::bit_some, crate::proofs::Payloads::bit_inside))]
    fn bit(self, k: usize) -> u8
        ensures { result ≡ payload_bit self.entry.mode (masked self.entry.window.chips.now) k }
    {
        let Some(part) = self.window.block_of(self.mode, k / 508) else {
            return 0;
        };
        // The mask keeps the octet's bits apart whatever the chips are.
        part.chips[self.mode.spread() * (k % 508)] & 1
    }

    // Octet j, its first bit the lowest.
    fn octet(self, j: usize) -> u8
        requires { j < 2 ^ 32 }
        ensures { result ≡ payload_octet self.entry.mode (masked self.entry.window.chips.now) j }
    {
        let mut octet = 0;
        // The index is the shift.
        for k in 0..8u8 {
            octet |= self.bit(8 * j + k as usize) << k;
        }
        octet
    }
}

// Writes body word `number`, from 0, of a body of `length` octets, and zeros behind it, and answers how many octets the word has.
pub fn body_word(
    window: Window<'_>,
    mode: Mode,
    length: u16,
    number: u16,
    out: &mut [u8; 240],
) -> usize
    ensures size { result ≡ word_length length number }
    ensures out { out.new ≡ word_read mode length (masked window.entry.chips.now) number ++ replicate (240 - word_length length number) 0 }
    ensures read { Each Chip window.entry.chips.now → out.new ≡ word_read mode length window.entry.chips.now number ++ replicate (240 - word_length length number) 0 }
{
    let size = (length as usize)
        .saturating_sub(224 * number as usize)
        .min(224)
        + 16;
    let first = 240 * number as usize;
    let payload = Payload { window, mode };
    *out = [0; 240];
    for (j, octet) in out[..size].iter_mut().enumerate() {
        *octet = payload.octet(first + j);
    }
    size
}
