// One mender, or two of a kind one after the other. Piles of piles hold several.
ghost use Rattle.chosen.specs.Piles.{pile_reach, PileRule};
ghost use Rattle.chosen.specs.Laws.{pile_mends};

use mending::{Mender, Then};
use words::Change;

#[derive(Drop)]
pub enum Pile<M> {
    One(M),
    Two(Then<M, M>),
}

impl<M: Mender> Mender for Pile<M> {
    ghost reach = { pile_reach M.Mender.reach };

    ghost rule = { PileRule M.Mender.rule };

    ghost mends = { pile_mends M.Mender.reach M.Mender.rule M.Mender.mends };

    fn reach(&self) -> usize {
        match self {
            Pile::One(m) => m.reach(),
            Pile::Two(p) => p.reach(),
        }
    }

    fn propose(&mut self, word: &[u8], out: &mut [Change; 16]) -> Option<usize> {
        match self {
            Pile::One(m) => m.propose(word, out),
            Pile::Two(p) => p.propose(word, out),
        }
    }
}
