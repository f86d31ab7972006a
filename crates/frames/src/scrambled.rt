// A guard that scrambles a body in the caller's own buffer, and takes the sequence off again when it is let go.
ghost use Rattle.std.specs.Prelude.{◌≡◌, ◌*◌, length};
ghost use Rattle.format.specs.Sequences.{after, mixed, scrambler};

use format::{Register, mix};

pub struct Scrambled<'a> {
    body: &'a mut [u8],
    seed: u8,
    // The scrambler's register behind the body's last octet.
    behind: Register,
}

// The scrambler's register where a body begins: the MAC header and its check have taken 96 bits.
fn body_start(seed: u8) -> Register
    ensures { result.bits ≡ after 96 (scrambler seed) }
{
    Register::scrambler(seed).skip(96)
}

impl Drop for Scrambled<'_> {
    fn drop(self)
        ensures { self.exit.0.now ≡ mixed (after 96 (scrambler self.entry.seed)) self.entry.body.now }
    {
        let Scrambled {
            body,
            seed,
            behind: _,
        } = self;
        mix(body, body_start(seed));
    }
}

impl<'a> Scrambled<'a> {
    // Scrambles the body under the seed, of which the four low bits count.
    pub fn new(body: &'a mut [u8], seed: u8) -> Scrambled<'a>
        ensures scrambled { result.body.now ≡ mixed (after 96 (scrambler seed)) body.old }
        ensures seed { result.seed ≡ seed }
        ensures behind { result.behind.bits ≡ after (8 * length body.old) (after 96 (scrambler seed)) }
        ensures same { result.body.ghost_name ≡ body.entry.ghost_name }
    {
        let behind = mix(body, body_start(seed));
        Scrambled { body, seed, behind }
    }
}

impl Scrambled<'_> {
    // The body as it stands under the guard.
    pub fn view(&self) -> &[u8]
        ensures { result.now ≡ self.now.body.now }
    {
        self.body
    }

    // The scrambler's register behind the body.
    pub fn behind(&self) -> Register
        ensures { result.bits ≡ self.now.behind.bits }
    {
        self.behind
    }
}
