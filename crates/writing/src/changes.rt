// Changes, as a place and an octet each, with commas between them.
ghost use Rattle.std.specs.Prelude.{◌≡◌, ◌++◌, Some, string_bytes, OnOk};
ghost use Rattle.writing.specs.Changes.{change_written, changes_written};

use crate::octets::Octets;
use crate::text::put;
use std::alloc::AllocError;
use std::fmt;
use words::Change;

// One change.
#[derive(Clone, Copy)]
struct Single(Change);

impl fmt::Display for Single {
    ghost output = { λ s. Some (change_written s.0) };

    fn fmt<W: fmt::Write>(&self, f: &mut fmt::Formatter<W>) -> fmt::Result {
        let Change { place, octet } = self.0;
        write!(f, "{place}:{}", Octets(&[octet]))
    }
}

// A list of changes, and a dash where it is empty.
#[derive(Clone, Copy)]
pub struct Changes<'a>(pub &'a [Change]);

impl fmt::Display for Changes<'_> {
    ghost output = { λ c. Some (changes_written c.0.now) };

    fn fmt<W: fmt::Write>(&self, f: &mut fmt::Formatter<W>) -> fmt::Result {
        let Some((first, rest)) = self.0.split_first() else {
            return write!(f, "-");
        };
        write!(f, "{}", Single(*first))?;
        for change in rest {
            write!(f, ",{}", Single(*change))?;
        }
        Ok(())
    }
}

// Writes a list of changes behind the text.
pub fn write_changes(out: &mut String, changes: &[Change]) -> Result<(), AllocError>
    ensures { OnOk result (string_bytes out.new ≡ string_bytes out.old ++ changes_written changes.now) }
{
    put(out, Changes(changes))
}
