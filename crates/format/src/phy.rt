// The PHY header's fields.

#[derive(Clone, Copy, PartialEq, Eq, Debug)]
pub struct Phy {
    pub seed: u8,
    pub aggregation: bool,
    pub length: u32,
    pub reserved: u8,
}
