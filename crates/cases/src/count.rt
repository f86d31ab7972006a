// How many answers agreed. `trials` counts alike in its own words; a crate for both would be longer than they are.
use std::fmt;

#[derive(Clone, Copy, Default)]
pub struct Count {
    agreed: u32,
    differed: u32,
}

impl Count {
    pub(crate) fn note(&mut self, agrees: bool) {
        if agrees {
            self.agreed = self.agreed.saturating_add(1);
        } else {
            self.differed = self.differed.saturating_add(1);
        }
    }

    pub(crate) fn plus(self, other: Count) -> Count {
        Count {
            agreed: self.agreed.saturating_add(other.agreed),
            differed: self.differed.saturating_add(other.differed),
        }
    }

    pub(crate) fn all_agreed(&self) -> bool {
        self.differed == 0
    }
}

impl fmt::Display for Count {
    fn fmt<W: fmt::Write>(&self, f: &mut fmt::Formatter<W>) -> fmt::Result {
        write!(f, "{} agreed, {} did not", self.agreed, self.differed)
    }
}
