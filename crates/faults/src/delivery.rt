// What a read delivers, and what a build answers.
use format::Mode;

// A delivered frame: its mode, its seed, whether it is aggregated, the body's length, and how many word octets were mended.
#[derive(Clone, Copy, PartialEq, Eq, Debug)]
pub struct Delivery {
    pub mode: Mode,
    pub seed: u8,
    pub aggregation: bool,
    pub length: usize,
    pub mended: usize,
}

// A built frame: the seed that it was scrambled with, and how many chips were written.
#[derive(Clone, Copy, PartialEq, Eq, Debug)]
pub struct Built {
    pub seed: u8,
    pub chips: usize,
}
