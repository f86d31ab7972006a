// Octets as elements. Products and inverses go by the logarithms to base alpha.
ghost use Rattle.std.specs.Prelude.{◌≡◌, ◌<◌};
ghost use Rattle.elements.specs.Octets.{octets, Octet, power};
ghost use Rattle.elements.specs.OctetLaws.{octets_laws};

use crate::element::Element;
use crate::tables::{LOGARITHMS, POWERS};

// Alpha to the power i.
fn power_of(i: usize) -> u8
    requires { i < 510 }
    ensures { result ≡ power i }
{
    POWERS[i]
}

// The power of alpha that a is.
fn logarithm(a: u8) -> u8
    requires { 0 < a }
    ensures { (result < 255) × (power result ≡ a) }
{
    LOGARITHMS[a as usize]
}

impl Element for u8 {
    ghost ok = { Octet };

    ghost ops = { octets };

    ghost laws = { octets_laws };

    fn zero() -> u8 {
        0
    }

    fn one() -> u8 {
        1
    }

    fn add(self, other: u8) -> u8 {
        self ^ other
    }

    fn neg(self) -> u8 {
        self
    }

    fn mul(self, other: u8) -> u8 {
        if self == 0 || other == 0 {
            0
        } else {
            power_of(logarithm(self) as usize + logarithm(other) as usize)
        }
    }

    fn inv(self) -> u8 {
        if self == 0 {
            0
        } else {
            power_of(255 - logarithm(self) as usize)
        }
    }

    fn same(self, other: u8) -> bool {
        self == other
    }

    fn proper(self) {}
}
