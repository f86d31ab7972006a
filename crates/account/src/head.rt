// The fields of a header that was read.
use format::Phy;

// The PHY header, the MAC header, and how many octets of the header word were mended.
#[derive(Clone, Copy)]
pub struct Head {
    pub phy: Phy,
    pub mac: [u8; 10],
    pub mended: usize,
}
