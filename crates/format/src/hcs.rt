// The header check sequence: a check over bits.
ghost use Rattle.std.specs.Prelude.{◌≡◌, ◌*◌, true, not, List, map, length, replicate, if◌then◌else◌, Some, None, nat_eq};
ghost use Rattle.format.specs.Sequences.{value};
ghost use Rattle.format.specs.Bits.{flag, bit_of, line};
ghost use Rattle.format.specs.Header.{hcs, hcs_generator};
ghost use Rattle.std.proofs.Common.{rules};

use polynomials::{Check, checksum};

// x^16 + x^12 + x^5 + 1, the highest coefficient first.
const GENERATOR: [bool; 17] = [
    true, false, false, false, true, false, false, false, false, false, false, true, false, false,
    false, false, true,
];

pub struct Hcs;

impl Check for Hcs {
    type Element = bool;

    const DEGREE: usize = 16;

    ghost DEGREE = { 16 };

    ghost generator = { hcs_generator };

    ghost preset = { replicate 16 true };

    ghost generates = { Prim.search rules };

    fn generator(place: usize) -> bool {
        GENERATOR.get(place).copied().unwrap_or(false)
    }

    fn preset(place: usize) -> bool {
        place < 16
    }
}

// Lays the octets' bits out in line order.
fn lay_bits(octets: &[u8], room: &mut [bool])
    requires { length room.old ≡ 8 * length octets.now }
    ensures { room.new ≡ map flag (line octets.now) }
{
    for (i, bit) in room.iter_mut().enumerate() {
        *bit = octets[i / 8] >> (i % 8) & 1 == 1;
    }
}

// Eight bits as an octet, the first one lowest, each inverted.
fn inverted_octet(bits: &[bool]) -> u8
    requires { length bits.now ≡ 8 }
    ensures { result ≡ value (map (λ t. bit_of (not t)) bits.now) }
{
    let mut octet = 0;
    // The index is the shift.
    for (k, t) in bits.iter().enumerate() {
        octet |= (!*t as u8) << k;
    }
    octet
}

// The header check sequence of the octets, as the two octets that are sent.
// The bits are laid out in the room, which has to have eight places for each octet; else None, and the room as it was.
pub fn header_check(octets: &[u8], room: &mut [bool]) -> Option<[u8; 2]>
    ensures answer { result ≡ (if nat_eq (length room.old) (8 * length octets.now) then Some (hcs octets.now) else None) }
    ensures room { room.new ≡ (if nat_eq (length room.old) (8 * length octets.now) then map flag (line octets.now) else room.old) }
{
    if octets.len().checked_mul(8) != Some(room.len()) {
        return None;
    }
    lay_bits(octets, room);
    let mut check = [false; 16];
    let mut row = [false; 17];
    let mut divisor = [false; 17];
    checksum::<Hcs>(room, &mut check, &mut row, &mut divisor)?;
    Some([inverted_octet(&check[..8]), inverted_octet(&check[8..])])
}
