// The word coder at its boundaries, and against parity computed elsewhere.
use crate::count::Count;
use crate::octets::fill;
use elements::Element;
use words::{encode, is_codeword};

const OF_ONE: &[u8; 16] = b"\x76\x34\x67\x1f\x68\x7e\xbb\xe8\x11\x38\xb7\x31\x64\x51\x2c\x4f";

const OF_LONGEST: &[u8; 16] = b"\xe6\xa5\x7d\xe9\x6b\xe8\x8c\x95\x57\xc8\x8a\x4f\x73\x5c\x50\x20";

const OF_FIVE: &[u8; 16] = b"\x98\x5c\xfa\x90\x07\x99\xbe\xeb\x1a\x92\xb5\xdd\x58\x23\xe6\x45";

// Whether the parity of the message is the one expected.
fn coded(message: &[u8], expected: &[u8; 16]) -> bool {
    let mut parity = [0u8; 16];
    encode(message, &mut parity).is_ok() && parity == *expected
}

// Whether the coder refuses these lengths, and leaves the buffer as it was.
fn refused(message: &[u8], parity: &mut [u8]) -> bool {
    encode(message, parity).is_err() && parity.iter().all(|p| *p == 9)
}

pub(crate) fn coder() -> Count {
    let mut count = Count::default();
    let mut row = [0u8; 225];
    fill(&mut row, 3, 7);
    count.note(0x80u8.mul(2) == 0x1d);
    count.note(coded(&[1], OF_ONE));
    count.note(coded(&row[0..5], OF_FIVE));
    count.note(coded(&row[0..224], OF_LONGEST));
    count.note(refused(&[], &mut [9u8; 16]));
    count.note(refused(&row, &mut [9u8; 16]));
    count.note(refused(&row[0..5], &mut [9u8; 15]));
    count.note(refused(&row[0..5], &mut [9u8; 17]));
    count.note(!is_codeword(&row[0..16]));
    count
}
