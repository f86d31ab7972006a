// The seven modes.

#[derive(Clone, Copy, PartialEq, Eq, Debug)]
pub enum Mode {
    M1,
    M2,
    M3,
    M4,
    M5,
    M6,
    M7,
}
