// The parity of a Reed-Solomon code as a check over octets.
ghost use Rattle.std.specs.Prelude.{replicate};
ghost use Rattle.coding.specs.Codewords.{generator as rs_generator};
ghost use Rattle.words.specs.GeneratorTable.{parity_generates};

use polynomials::Check;

// The product of x + alpha^i for i from 1 to 16, the highest coefficient first.
const GENERATOR: [u8; 17] = [
    1, 118, 52, 103, 31, 104, 126, 187, 232, 17, 56, 183, 49, 100, 81, 44, 79,
];

pub struct Parity;

impl Check for Parity {
    type Element = u8;

    const DEGREE: usize = 16;

    ghost DEGREE = { 16 };

    ghost generator = { rs_generator };

    ghost preset = { replicate 16 0 };

    ghost generates = { parity_generates };

    #[tactic(auto, using(crate::specs::GeneratorTable::generator_is))]
    fn generator(place: usize) -> u8 {
        GENERATOR.get(place).copied().unwrap_or(0)
    }

    fn preset(_place: usize) -> u8 {
        0
    }
}
