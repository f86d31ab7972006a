// The station's state. Its calls stand in `calls`, since their promises cite definitions that name the struct.
ghost use Rattle.std.specs.Prelude.{◌<◌};

use crate::tally::Tally;

pub mod calls;

#[derive(Drop)]
pub struct Station<M> {
    // The seed of the next frame; only an accepted build moves it.
    seed: u8,
    tally: Tally,
    mender: M,
    ghost ok: { seed < 16 },
}
