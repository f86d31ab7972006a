// The four codes that a piece of the preamble can be read as.

// The codes a and b; Minus has every chip inverted.
#[derive(Clone, Copy, PartialEq, Eq, Debug)]
pub enum Code {
    A,
    MinusA,
    B,
    MinusB,
}
