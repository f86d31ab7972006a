// A call's buffers before and after it.
ghost use Rattle.std.specs.Prelude.{◌≡◌, Some, take, drop};
ghost use Rattle.buffers.specs.Buffers.{all_zero, all_chips, buffers_text, build_filled, read_filled, read_zeroed, after_build as build_left, after_read as read_left, after_encode as encode_left};

use std::fmt;

#[derive(Debug, Clone, Copy, PartialEq, Eq)]
pub enum Buffers {
    // They hold just what the call's description says.
    Filled,
    // Nothing changed.
    Untouched,
    // The MAC header buffer and the first 2,048 octets of the body buffer are zero, and the later octets are as before.
    Zeroed,
    Other,
}

impl Buffers {
    pub fn text(self) -> &'static str
        ensures { result.now ≡ buffers_text self }
    {
        match self {
            Buffers::Filled => "filled",
            Buffers::Untouched => "untouched",
            Buffers::Zeroed => "zeroed",
            Buffers::Other => "other",
        }
    }
}

impl fmt::Display for Buffers {
    ghost output = { λ b. Some (buffers_text b) };

    fn fmt<W: fmt::Write>(&self, f: &mut fmt::Formatter<W>) -> fmt::Result {
        f.write_str(self.text())
    }
}

// A buffer before and after a call.
#[derive(Debug, Clone, Copy, PartialEq, Eq)]
pub struct Looks<'a> {
    pub before: &'a [u8],
    pub after: &'a [u8],
}

fn are_zero(octets: &[u8]) -> bool
    ensures { result ≡ all_zero octets.now }
{
    octets.iter().all(|o| *o == 0)
}

fn are_chips(chips: &[u8]) -> bool
    ensures { result ≡ all_chips chips.now }
{
    chips.iter().all(|c| *c <= 1)
}

// The first n octets, or as many as there are.
fn front(octets: &[u8], n: usize) -> &[u8]
    ensures { result.now ≡ take n octets.now }
{
    &octets[..n.min(octets.len())]
}

// What stands behind the first n octets.
fn behind(octets: &[u8], n: usize) -> &[u8]
    ensures { result.now ≡ drop n octets.now }
{
    &octets[n.min(octets.len())..]
}

fn is_build_filled(written: Option<usize>, chips: Looks<'_>) -> bool
    ensures { result ≡ build_filled written chips.entry.before.now chips.entry.after.now }
{
    written.is_some_and(|n| {
        are_chips(front(chips.after, n)) && behind(chips.before, n) == behind(chips.after, n)
    })
}

// The buffers of a build, and how many chips it wrote unless it was refused.
pub fn after_build(written: Option<usize>, body: Looks<'_>, chips: Looks<'_>) -> Buffers
    ensures { result ≡ build_left written body.entry.before.now body.entry.after.now chips.entry.before.now chips.entry.after.now }
{
    if body.before != body.after {
        Buffers::Other
    } else if is_build_filled(written, chips) {
        Buffers::Filled
    } else if chips.before == chips.after {
        Buffers::Untouched
    } else {
        Buffers::Other
    }
}

fn is_read_filled(length: Option<usize>, body: Looks<'_>) -> bool
    ensures { result ≡ read_filled length body.entry.before.now body.entry.after.now }
{
    length.is_some_and(|n| {
        are_zero(behind(front(body.after, 2048), n))
            && behind(body.before, 2048) == behind(body.after, 2048)
    })
}

fn is_read_zeroed(mac: &[u8], body: Looks<'_>) -> bool
    ensures { result ≡ read_zeroed mac.now body.entry.before.now body.entry.after.now }
{
    are_zero(mac)
        && are_zero(front(body.after, 2048))
        && behind(body.before, 2048) == behind(body.after, 2048)
}

// The buffers of a read, and how long the body is unless the read was refused.
pub fn after_read(length: Option<usize>, mac: Looks<'_>, body: Looks<'_>) -> Buffers
    ensures { result ≡ read_left length mac.entry.before.now mac.entry.after.now body.entry.before.now body.entry.after.now }
{
    if is_read_filled(length, body) {
        Buffers::Filled
    } else if mac.before == mac.after && body.before == body.after {
        Buffers::Untouched
    } else if is_read_zeroed(mac.after, body) {
        Buffers::Zeroed
    } else {
        Buffers::Other
    }
}

// The parity buffer of an encoding that was refused.
pub fn after_encode(parity: Looks<'_>) -> Buffers
    ensures { result ≡ encode_left parity.entry.before.now parity.entry.after.now }
{
    if parity.before == parity.after {
        Buffers::Untouched
    } else {
        Buffers::Other
    }
}
