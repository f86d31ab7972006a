// The PHY header's fields in four octets, the lowest bits first.
ghost use Rattle.std.specs.Prelude.{◌≡◌};
ghost use Rattle.format.specs.Header.{phy_octets, joined, unpacked};

use crate::phy::Phy;

// The fields as 32 bits: 4 of the seed, 1 of the aggregation, 23 of the frame length, 4 reserved.
#[tactic(auto, using(crate::proofs::HeaderBits::packed_code, crate::proofs::HeaderBits::octets_code), unfolding(crate::specs::Header::phy_octets))]
pub fn pack(h: Phy) -> [u8; 4]
    ensures { result ≡ phy_octets h }
{
    let word = (h.seed & 15) as u32
        | (h.aggregation as u32) << 4
        | (h.length & 0x7f_ffff) << 5
        | ((h.reserved & 15) as u32) << 28;
    word.to_le_bytes()
}

#[tactic(auto, using(crate::proofs::HeaderBits::joined_code, crate::proofs::HeaderBits::unpacked_code))]
pub fn unpack(octets: &[u8; 4]) -> Phy
    ensures { result ≡ unpacked (joined octets.now) }
{
    let word = u32::from_le_bytes(*octets);
    Phy {
        seed: (word & 15) as u8,
        aggregation: word >> 4 & 1 == 1,
        length: word >> 5 & 0x7f_ffff,
        reserved: (word >> 28) as u8,
    }
}
