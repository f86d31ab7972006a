// Runs a script: a file or standard input is read line by line, as octets, and a desk answers each line as it comes.
use crate::failed::Failed;
use crate::files::open_file;
use captures::split_line;
use script::{Desk, Outcome};
use std::io::{BufRead, BufReader, Read};

// Answers one line, and says whether it may stand in a script.
fn answer_line(
    rt: &(impl Print + AllocGlobal),
    desk: &mut Desk,
    number: usize,
    line: &[u8],
) -> anyhow::Result<bool> {
    let mut text = String::new(rt.alloc());
    match desk.obey(rt.alloc(), number, line, &mut text)? {
        Outcome::PassedOver => Ok(true),
        Outcome::Answered => {
            rt.println(text.as_str())?;
            Ok(true)
        }
        Outcome::NoCall => {
            rt.println(text.as_str())?;
            Ok(false)
        }
    }
}

fn answer_lines<R: Read + Drop>(rt: &(impl Print + AllocGlobal), input: R) -> anyhow::Result<()> {
    let mut desk = Desk::new();
    let mut right = true;
    let reader = BufReader::new(rt.alloc(), input)?;
    for (number, octets) in (1..).zip(reader.split(rt.alloc(), b'\n')) {
        let octets = octets?;
        let (line, _) = split_line(octets.as_slice());
        right = answer_line(rt, &mut desk, number, line)? && right;
    }
    if right { Ok(()) } else { Err(Failed.into()) }
}

// Runs the script of a file, or of standard input where none is named. It fails where a line is no call.
pub(crate) fn run_script(rt: &HostRuntime, file: Option<&str>) -> anyhow::Result<()> {
    match file {
        Some(path) => answer_lines(rt, open_file(rt, path)?),
        None => answer_lines(rt, rt.stdin()),
    }
}
