// One of the known menders.
ghost use Rattle.chosen.specs.Leaves.{leaf_reach, LeafRule};
ghost use Rattle.chosen.specs.Laws.{leaf_mends};

use menders::{Full, Single};
use mending::{Mender, Still};
use words::Change;

// None of them remembers anything, so a name stands for each. A boxed mender would want memory, and naming one cannot fail.
#[derive(Clone, Copy, PartialEq, Eq, Debug)]
pub enum Leaf {
    Still,
    Single,
    Full,
}

impl Mender for Leaf {
    ghost reach = { leaf_reach };

    ghost rule = { LeafRule };

    ghost mends = { leaf_mends };

    fn reach(&self) -> usize {
        match self {
            Leaf::Still => Still {}.reach(),
            Leaf::Single => Single {}.reach(),
            Leaf::Full => Full {}.reach(),
        }
    }

    fn propose(&mut self, word: &[u8], out: &mut [Change; 16]) -> Option<usize> {
        match self {
            Leaf::Still => Still {}.propose(word, out),
            Leaf::Single => Single {}.propose(word, out),
            Leaf::Full => Full {}.propose(word, out),
        }
    }
}
