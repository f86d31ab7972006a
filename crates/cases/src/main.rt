// Stored calls with the answers that a second implementation gave: makes each call, and counts by kind how many answers agree.
#![tactic(auto)]

mod count;
mod difference;
mod kinds;
mod trial;

use anyhow::ensure;
use difference::Difference;
use std::fs;
use std::rt::Files;
use trial::Trial;

fn show_differences(rt: &impl Print, differences: &[Difference]) -> anyhow::Result<()> {
    for d in differences {
        println!(rt; "{d}")?;
    }
    Ok(())
}

fn show(rt: &impl Print, trial: &Trial) -> anyhow::Result<()> {
    for (name, count) in trial.kinds().counts() {
        println!(rt; "{}: {count}", name.as_str())?;
    }
    println!(rt; "total: {}", trial.kinds().total())?;
    show_differences(rt, trial.differences())
}

fn run(rt: &(impl Print + Files + AllocGlobal)) -> anyhow::Result<()> {
    let text = fs::read(rt, "cases.txt")?;
    let mut trial = Trial::new(rt.alloc());
    trial.run(rt.alloc(), text.as_slice())?;
    show(rt, &trial)?;
    ensure!(
        trial.kinds().total().all_agreed(),
        "some answers do not agree"
    );
    Ok(())
}

fn main(rt: HostRuntime) -> anyhow::Result<()> {
    run(&rt)
}
