// A trial of stored calls: a script in which a line `> ANSWER` follows each call, and lines `# kind: NAME` name the kind of the calls after them.
use crate::difference::Difference;
use crate::kinds::Kinds;
use captures::Lines;
use script::{Desk, Outcome};
use std::alloc::{AllocError, Global};

// So many differences are kept.
const KEPT: usize = 20;

#[derive(Drop)]
pub struct Trial {
    desk: Desk,
    kinds: Kinds,
    differences: Vec<Difference>,
    // The line of the file that was read last, from 1, and how many lines are the script's.
    line: usize,
    script_line: usize,
    // The last call's answer, until it is compared.
    answer: Option<String>,
}

impl Trial {
    pub(crate) fn new(heap: Global) -> Trial {
        Trial {
            desk: Desk::new(),
            kinds: Kinds::new(heap),
            differences: Vec::new(heap),
            line: 0,
            script_line: 0,
            answer: None,
        }
    }

    // Holds what was found to what was expected.
    fn compare(&mut self, heap: Global, expected: &[u8], found: &[u8]) -> Result<(), AllocError> {
        let agrees = expected == found;
        self.kinds.note(heap, agrees)?;
        if !agrees && self.differences.len() < KEPT {
            self.differences
                .push(Difference::new(heap, self.line, expected, found)?)?;
        }
        Ok(())
    }

    // An expected answer.
    fn expect(&mut self, heap: Global, expected: &[u8]) -> Result<(), AllocError> {
        match self.answer.take() {
            Some(found) => self.compare(heap, expected, found.as_bytes()),
            None => self.compare(heap, expected, b"no call stands before this answer"),
        }
    }

    // A line of the script.
    fn call(&mut self, heap: Global, line: &[u8]) -> Result<(), AllocError> {
        if let Some(found) = self.answer.take() {
            self.compare(heap, b"no answer stands behind this call", found.as_bytes())?;
        }
        self.script_line = self.script_line.saturating_add(1);
        if let Some(name) = line.strip_prefix(b"# kind: ") {
            self.kinds.enter(heap, name)?;
        }
        let mut answer = String::new(heap);
        match self.desk.obey(heap, self.script_line, line, &mut answer)? {
            Outcome::PassedOver => {}
            Outcome::Answered | Outcome::NoCall => self.answer = Some(answer),
        }
        Ok(())
    }

    fn step(&mut self, heap: Global, line: &[u8]) -> Result<(), AllocError> {
        match line.strip_prefix(b"> ") {
            Some(expected) => self.expect(heap, expected),
            None => self.call(heap, line),
        }
    }

    // Runs the whole text.
    pub(crate) fn run(&mut self, heap: Global, text: &[u8]) -> Result<(), AllocError> {
        for (number, line) in (1..).zip(Lines::new(text)) {
            self.line = number;
            self.step(heap, line)?;
        }
        if let Some(found) = self.answer.take() {
            self.compare(heap, b"no answer stands behind this call", found.as_bytes())?;
        }
        Ok(())
    }

    pub(crate) fn kinds(&self) -> &Kinds {
        &self.kinds
    }

    pub(crate) fn differences(&self) -> &[Difference] {
        self.differences.as_slice()
    }
}
