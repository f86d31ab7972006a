// How many trials of a kind went as they should.
use std::fmt;

#[derive(Clone, Copy, Default)]
pub struct Count {
    right: u32,
    wrong: u32,
}

impl Count {
    pub(crate) fn note(&mut self, right: bool) {
        if right {
            self.right = self.right.saturating_add(1);
        } else {
            self.wrong = self.wrong.saturating_add(1);
        }
    }
}

impl fmt::Display for Count {
    fn fmt<W: fmt::Write>(&self, f: &mut fmt::Formatter<W>) -> fmt::Result {
        write!(f, "{} right, {} wrong", self.right, self.wrong)
    }
}
