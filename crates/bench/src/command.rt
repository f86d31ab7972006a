// What the arguments ask for.
use format::Mode;

#[derive(Clone, Copy)]
pub enum Command<'a> {
    Chain,
    Help,
    Capture(&'a str),
    Frames(Frames<'a>),
    // A script from a file, or from standard input.
    Script(Option<&'a str>),
    Sample,
    Speed,
}

// How many frames of a mode, with the octets of a file in them if one is named.
#[derive(Clone, Copy)]
pub struct Frames<'a> {
    pub mode: Mode,
    pub count: u32,
    pub file: Option<&'a str>,
}

fn read_frames<'a>(mode: &str, count: &str, file: Option<&'a str>) -> Option<Command<'a>> {
    let mode = Mode::try_from(mode.parse::<u8>().ok()?).ok()?;
    let count = count.parse::<u32>().ok()?;
    Some(Command::Frames(Frames { mode, count, file }))
}

// The command of the arguments behind the program's name; none where they are wrong.
pub(crate) fn read_command(args: &[String]) -> Option<Command<'_>> {
    match args {
        [] => Some(Command::Chain),
        [name] => match name.as_str() {
            "help" => Some(Command::Help),
            "sample" => Some(Command::Sample),
            "script" => Some(Command::Script(None)),
            "speed" => Some(Command::Speed),
            _ => None,
        },
        [name, file] if name.as_str() == "capture" => Some(Command::Capture(file.as_str())),
        [name, file] if name.as_str() == "script" => Some(Command::Script(Some(file.as_str()))),
        [name, mode, count] if name.as_str() == "frames" => {
            read_frames(mode.as_str(), count.as_str(), None)
        }
        [name, mode, count, file] if name.as_str() == "frames" => {
            read_frames(mode.as_str(), count.as_str(), Some(file.as_str()))
        }
        _ => None,
    }
}
