// Two answers that do not agree.
use std::alloc::{AllocError, Global};
use std::fmt;

#[derive(Drop)]
pub struct Difference {
    // The line of the file where the expected answer stands.
    line: usize,
    expected: String,
    found: String,
}

// The first 200 octets as text.
fn shortened(heap: Global, octets: &[u8]) -> Result<String, AllocError> {
    String::from_utf8_lossy(heap, octets.get(..200).unwrap_or(octets))
}

impl Difference {
    pub(crate) fn new(
        heap: Global,
        line: usize,
        expected: &[u8],
        found: &[u8],
    ) -> Result<Difference, AllocError> {
        Ok(Difference {
            line,
            expected: shortened(heap, expected)?,
            found: shortened(heap, found)?,
        })
    }
}

impl fmt::Display for Difference {
    fn fmt<W: fmt::Write>(&self, f: &mut fmt::Formatter<W>) -> fmt::Result {
        writeln!(f, "line {}", self.line)?;
        writeln!(f, "  expected {}", self.expected.as_str())?;
        write!(f, "  found    {}", self.found.as_str())
    }
}
