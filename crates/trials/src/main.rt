// Trials over tables: what the calls do at boundaries and on damage, counted by kind.
#![tactic(auto)]

mod chips;
mod coder;
mod count;
mod framing;
mod mend;
mod octets;

use chips::chips;
use coder::coder;
use count::Count;
use framing::{edges, round_trips};
use mend::{causes, menders_table};

fn show(rt: &impl Print, kind: &str, count: Count) -> anyhow::Result<()> {
    println!(rt; "{kind}: {count}")?;
    Ok(())
}

fn run(rt: &(impl Print + AllocGlobal)) -> anyhow::Result<()> {
    show(rt, "word coder", coder())?;
    show(rt, "menders", menders_table())?;
    show(rt, "causes", causes())?;
    show(rt, "round trips", round_trips(rt.alloc())?)?;
    show(rt, "edges", edges(rt.alloc())?)?;
    show(rt, "chips", chips(rt.alloc())?)
}

fn main(rt: HostRuntime) -> anyhow::Result<()> {
    run(&rt)
}
