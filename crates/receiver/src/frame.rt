// A read: the door, and the frame behind it.
ghost use Rattle.account.specs.Answers.{Passed, Blank, FrameAs, Received};

use crate::body::Payload;
use crate::door::admit;
use crate::header::read_header;
use crate::preamble::read_mode;
use faults::{Delivery, Fault};
use mending::Mender;
use windows::Window;

// Reads a frame behind the door, into buffers that hold zeros. Where it is turned down, some of the body may have been written.
fn read_frame<M: Mender>(
    mender: &mut M,
    n: u8,
    window: Window<'_>,
    body: &mut [u8],
    mac: &mut [u8],
) -> Result<Delivery, Fault>
    requires passed { Passed n window.chips.now body.old mac.old }
    requires blank { Blank body.old mac.old }
    ensures { FrameAs M.Mender.rule mender.old n window.entry.chips.now body.old mac.old result body.new mac.new mender.new }
{
    let mode = read_mode(window, n)?;
    let Ok(part) = window.header(n) else {
        // The door has seen to the channels and to the window's length.
        unreachable()
    };
    let head = read_header(mender, part)?;
    let phy = head.phy;
    let payload = Payload {
        window,
        mode,
        seed: phy.seed,
        length: phy.length as u16,
    };
    let mended = payload.read(mender, body)?;
    mac.copy_from_slice(&head.mac);
    Ok(Delivery {
        mode,
        seed: phy.seed,
        aggregation: phy.aggregation,
        length: phy.length as usize,
        mended: head.mended + mended,
    })
}

// Reads a window with a mender. Refused at the door, a read leaves both buffers as they were. Behind it, zeros fill the first 2,048 octets of the
// body buffer and the MAC header buffer, but for what is delivered.
pub fn receive<M: Mender>(
    mender: &mut M,
    n: u8,
    window: &[u8],
    body: &mut [u8],
    mac: &mut [u8],
) -> Result<Delivery, Fault>
    ensures { Received M.Mender.rule mender.old n window.now body.old mac.old result body.new mac.new mender.new }
{
    admit(n, window, body, mac)?;
    body[..2048].fill(0);
    mac.fill(0);
    let answer = read_frame(mender, n, Window::new(window), body, mac);
    if answer.is_err() {
        // Words before the one that failed have been written.
        body[..2048].fill(0);
    }
    answer
}
