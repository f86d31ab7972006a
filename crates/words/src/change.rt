// A change to a word.

// A place in a word, 0 for the first octet, and an octet to be added there.
#[derive(Clone, Copy, Default, PartialEq, Eq, Debug)]
pub struct Change {
    pub place: usize,
    pub octet: u8,
}

impl Change {
    // Fills places that hold no proposal.
    pub const BLANK: Change = Change { place: 0, octet: 0 };
}
