// The counts by kind, in the order in which the kinds first appear.
use crate::count::Count;
use std::alloc::{AllocError, Global};

// A name that is not UTF-8 is written as the text next to it, but is equal to none here: each line with such a name begins a kind of its own.
#[derive(Drop)]
pub struct Kinds {
    counts: Vec<(String, Count)>,
    // The place of the kind that calls are of.
    current: usize,
}

impl Kinds {
    pub(crate) fn new(heap: Global) -> Kinds {
        Kinds {
            counts: Vec::new(heap),
            current: 0,
        }
    }

    // The calls from here on are of this kind.
    pub(crate) fn enter(&mut self, heap: Global, name: &[u8]) -> Result<(), AllocError> {
        let known = self
            .counts
            .iter()
            .position(|(kind, _)| kind.as_bytes() == name);
        self.current = known.unwrap_or(self.counts.len());
        if known.is_none() {
            let kind = String::from_utf8_lossy(heap, name)?;
            self.counts.push((kind, Count::default()))?;
        }
        Ok(())
    }

    // Notes an answer of the current kind.
    pub(crate) fn note(&mut self, heap: Global, agrees: bool) -> Result<(), AllocError> {
        if self.counts.is_empty() {
            self.enter(heap, b"no kind")?;
        }
        if let Some((_, count)) = self.counts.get_mut(self.current) {
            count.note(agrees);
        }
        Ok(())
    }

    pub(crate) fn counts(&self) -> &[(String, Count)] {
        self.counts.as_slice()
    }

    pub(crate) fn total(&self) -> Count {
        self.counts
            .iter()
            .fold(Count::default(), |total, (_, count)| total.plus(*count))
    }
}
