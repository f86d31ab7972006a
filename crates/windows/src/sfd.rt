// The codes of the start frame delimiter as they are read.
ghost use Rattle.std.specs.Prelude.{◌≡◌};
ghost use Rattle.format.specs.Reading.{near as is_near, read_code, code_at};
ghost use Rattle.format.specs.Codes.{code_chips};

use crate::window::Window;
use format::{Code, chips_of};
use polynomials::differences;

// Whether the chips differ from a code in at most 31 places.
fn near(chips: &[u8], code: Code) -> bool
    ensures { result ≡ is_near chips.now (code_chips code) }
{
    differences(chips, chips_of(code)) <= 31
}

// The first of a, −a, b and −b that differs from the chips in at most 31 places, up to the shorter's end. Of 128 chips there is at most one.
pub fn read_code(chips: &[u8]) -> Option<Code>
    ensures { result ≡ read_code chips.now }
{
    [Code::A, Code::MinusA, Code::B, Code::MinusB]
        .iter()
        .copied()
        .find(|code| near(chips, *code))
}

// Code k, from 0, of the first SFD group of n channels.
pub fn sfd_code(window: Window<'_>, n: u8, k: u8) -> Option<Code>
    ensures { result ≡ read_code (code_at n k window.entry.chips.now) }
{
    read_code(window.code(n, k))
}
