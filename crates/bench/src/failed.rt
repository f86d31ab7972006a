// How a subcommand ends that has already said what was wrong.
use std::error::Error;
use std::fmt;

#[derive(Debug, Drop)]
pub struct Failed;

impl fmt::Display for Failed {
    fn fmt<W: fmt::Write>(&self, f: &mut fmt::Formatter<W>) -> fmt::Result {
        write!(f, "failed")
    }
}

impl Error for Failed {}
