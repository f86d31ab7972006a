// The seeds of frames that are delivered one after the other.
ghost use Rattle.std.specs.Prelude.{◌≡◌, Some};
ghost use Rattle.captures.specs.Seeds.{seed_fault, seed_fault_text};

use std::fmt;

#[derive(Debug, Clone, Copy, PartialEq, Eq)]
pub enum SeedFault {
    // The seed is that of the frame before.
    Repeated,
    // The seed is neither that of the frame before nor the next one.
    Skipped,
}

impl fmt::Display for SeedFault {
    ghost output = { λ e. Some (seed_fault_text e) };

    fn fmt<W: fmt::Write>(&self, f: &mut fmt::Formatter<W>) -> fmt::Result {
        match self {
            SeedFault::Repeated => write!(f, "seed repeated"),
            SeedFault::Skipped => write!(f, "seed skipped"),
        }
    }
}

// What is wrong with a frame's seed, given that of the frame before; the first frame has none before it.
pub fn seed_fault(before: Option<u8>, seed: u8) -> Option<SeedFault>
    ensures { result ≡ seed_fault before seed }
{
    let last = before?;
    if u16::from(seed) == (u16::from(last) + 1) % 16 {
        return None;
    }
    if seed == last {
        Some(SeedFault::Repeated)
    } else {
        Some(SeedFault::Skipped)
    }
}
