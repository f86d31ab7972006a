// The bench: frames for a person to look at. Without an argument it pulls one frame through the whole chain and says how it is used.
#![tactic(auto)]

mod capture;
mod captured;
mod chain;
mod command;
mod failed;
mod files;
mod frame;
mod hex;
mod mend;
mod outcome;
mod samples;
mod script_run;
mod session;
mod speed;
mod spoil;
mod stopwatch;
mod summary;
mod usage;
mod word;

use capture::read_capture;
use captured::show_captured;
use chain::show_chain;
use command::{Command, read_command};
use failed::Failed;
use samples::write_frames;
use script_run::run_script;
use speed::show_speed;
use std::env;
use usage::USAGE;

fn perform(rt: &HostRuntime, command: Command<'_>) -> anyhow::Result<()> {
    match command {
        Command::Chain => {
            show_chain(rt)?;
            eprint!(rt; "{USAGE}")?;
            Ok(())
        }
        Command::Help => {
            print!(rt; "{USAGE}")?;
            Ok(())
        }
        Command::Capture(file) => read_capture(rt, file),
        Command::Frames(asked) => write_frames(rt, asked),
        Command::Sample => show_captured(rt),
        Command::Script(file) => run_script(rt, file),
        Command::Speed => show_speed(rt),
    }
}

fn run(rt: &HostRuntime) -> anyhow::Result<()> {
    let args = env::args(rt)?.skip(1).collect::<Vec<String>>(rt.alloc())?;
    let Some(command) = read_command(args.as_slice()) else {
        eprint!(rt; "{USAGE}")?;
        return Err(Failed.into());
    };
    perform(rt, command)
}

fn main(rt: HostRuntime) -> anyhow::Result<()> {
    run(&rt)
}
