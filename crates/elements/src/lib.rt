// Elements of a field: what a kind of element can do, and its laws; bits and octets.
#![tactic(auto)]

pub mod bit;
pub mod element;
pub mod octet;
mod tables;

pub use element::Element;
