// The scrambler's and the spreader's bit sequences, by a register of 15 bits.
ghost use Rattle.std.specs.Prelude.{◌≡◌, ℕ, ◌*◌, ◌^◌, ◌<◌, List, length};
ghost use Rattle.format.specs.Sequences.{next as next_bit, advanced, after, key, mixed, scrambler, spreader};

// The register of a sequence: bit k of it is the bit that came k + 1 places ago.
#[derive(Clone, Copy, PartialEq, Eq, Debug)]
pub struct Register {
    bits: u16,
    ghost ok: { bits < 2 ^ 15 },
}

impl Register {
    // The scrambler's register before its first bit; only the seed's four low bits count.
    #[tactic(auto, unfolding(crate::specs::Sequences::scrambler))]
    pub fn scrambler(seed: u8) -> Register
        ensures { result.bits ≡ scrambler seed }
    {
        let s = seed as u16;
        Register {
            bits: 0x050b
                + (s / 8 % 2) * 0x0800
                + (s / 4 % 2) * 0x1000
                + (s / 2 % 2) * 0x2000
                + (s % 2) * 0x4000,
        }
    }

    // The spreader's register before its first bit.
    #[tactic(auto, unfolding(crate::specs::Sequences::spreader))]
    pub fn spreader() -> Register
        ensures { result.bits ≡ spreader }
    {
        Register { bits: 0x7c0a }
    }

    // The next bit of the sequence.
    #[tactic(auto, using(crate::proofs::Registers::next_code, crate::proofs::Registers::advanced_code))]
    pub fn next(&mut self) -> u8
        ensures bit { result ≡ next_bit self.old.bits }
        ensures bits { self.new.bits ≡ advanced self.old.bits }
    {
        let bit = (self.bits >> 13 ^ self.bits >> 14) & 1;
        self.bits = (self.bits << 1 | bit) & 0x7fff;
        bit as u8
    }

    // The next eight bits, the first one lowest.
    #[tactic(auto, using(crate::proofs::Registers::octet_step, crate::proofs::Registers::after_step), unfolding(crate::specs::Sequences::after, crate::specs::Sequences::drawn, crate::specs::Sequences::key))]
    pub fn octet(&mut self) -> u8
        ensures octet { result ≡ key self.old.bits }
        ensures bits { self.new.bits ≡ after 8 self.old.bits }
    {
        let mut octet = 0;
        // No fold: its closure would change the register, and a proof knows nothing of what such a closure answers.
        for k in 0..8u8 {
            octet |= self.next() << k;
        }
        octet
    }

    // The register after n bits more.
    #[tactic(auto, using(crate::proofs::Registers::after_step), unfolding(crate::specs::Sequences::after))]
    pub fn skip(mut self, n: u8) -> Register
        ensures { result.bits ≡ after n self.bits }
    {
        for _ in 0..n {
            self.next();
        }
        self
    }
}

// Adds the sequence to the octets, and answers the register behind the last.
#[tactic(auto, using(crate::proofs::Mixing::mixed_more, crate::proofs::Mixing::mixed_all, crate::proofs::Mixing::after_octet), unfolding(crate::specs::Sequences::after))]
pub fn mix(octets: &mut [u8], mut register: Register) -> Register
    ensures octets { octets.new ≡ mixed register.bits octets.old }
    ensures bits { result.bits ≡ after (8 * length octets.old) register.bits }
{
    for o in octets.iter_mut() {
        *o ^= register.octet();
    }
    register
}
