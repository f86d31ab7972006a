// What the preamble says: the mode.
ghost use Rattle.std.specs.Prelude.{◌≡◌};
ghost use Rattle.account.specs.Rows.{preamble_row, sign_of, mode_signed};

use faults::PreambleFault;
use format::{Code, Mode};
use windows::{Window, sfd_code};

// The sign of a code, true for minus; b has none.
fn sign(code: Code) -> Option<bool>
    ensures { result ≡ sign_of code }
{
    match code {
        Code::A => Some(false),
        Code::MinusA => Some(true),
        Code::B | Code::MinusB => None,
    }
}

fn signed_mode(second: Code, third: Code, fourth: Code) -> Option<Mode>
    ensures { result ≡ mode_signed (sign_of second) (sign_of third) (sign_of fourth) }
{
    Mode::from_signs(sign(second)?, sign(third)?, sign(fourth)?)
}

// The mode that the first SFD group tells, for n channels.
pub fn read_mode(window: Window<'_>, n: u8) -> Result<Mode, PreambleFault>
    ensures { result ≡ preamble_row n window.entry.chips.now }
{
    // A chain of let .. else, in which each leaves with its own row.
    let Some(first) = sfd_code(window, n, 0) else {
        return Err(PreambleFault::Unreadable(1));
    };
    let Some(second) = sfd_code(window, n, 1) else {
        return Err(PreambleFault::Unreadable(2));
    };
    let Some(third) = sfd_code(window, n, 2) else {
        return Err(PreambleFault::Unreadable(3));
    };
    let Some(fourth) = sfd_code(window, n, 3) else {
        return Err(PreambleFault::Unreadable(4));
    };
    match first {
        Code::A | Code::B => return Err(PreambleFault::Unsigned),
        Code::MinusB => return Err(PreambleFault::Estimation),
        Code::MinusA => {}
    }
    let Some(mode) = signed_mode(second, third, fourth) else {
        return Err(PreambleFault::NoMode);
    };
    if mode.channels() != n as usize {
        return Err(PreambleFault::Channels);
    }
    Ok(mode)
}
