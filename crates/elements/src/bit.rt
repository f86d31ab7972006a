// Bits as elements: the field of two.
ghost use Rattle.elements.specs.Bits.{bits, Bit};
ghost use Rattle.elements.specs.BitLaws.{bits_laws};

use crate::element::Element;

impl Element for bool {
    ghost ok = { Bit };

    ghost ops = { bits };

    ghost laws = { bits_laws };

    fn zero() -> bool {
        false
    }

    fn one() -> bool {
        true
    }

    fn add(self, other: bool) -> bool {
        self ^ other
    }

    fn neg(self) -> bool {
        self
    }

    fn mul(self, other: bool) -> bool {
        self & other
    }

    fn inv(self) -> bool {
        self
    }

    fn same(self, other: bool) -> bool {
        self == other
    }

    fn proper(self) {}
}
