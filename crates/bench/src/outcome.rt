// What became of one window, as a line of text.
use captures::SeedFault;
use faults::{Delivery, Fault};
use std::fmt;

// A fault's place, and its cause where it has one.
#[derive(Clone, Copy)]
pub struct Spot(pub Fault);

impl fmt::Display for Spot {
    fn fmt<W: fmt::Write>(&self, f: &mut fmt::Formatter<W>) -> fmt::Result {
        write!(f, "place {}", self.0.refusal().place)?;
        match self.0.cause() {
            Some(cause) => write!(f, ", cause {}", cause.cause()),
            None => Ok(()),
        }
    }
}

// What is wrong with a frame's seed, behind a comma; nothing where nothing is.
#[derive(Clone, Copy)]
struct Remark(Option<SeedFault>);

impl fmt::Display for Remark {
    fn fmt<W: fmt::Write>(&self, f: &mut fmt::Formatter<W>) -> fmt::Result {
        match self.0 {
            Some(fault) => write!(f, ", {fault}"),
            None => Ok(()),
        }
    }
}

pub(crate) fn show_delivery(
    rt: &impl Print,
    window: u64,
    d: Delivery,
    seed: Option<SeedFault>,
) -> anyhow::Result<()> {
    println!(rt;
        "window {window}: mode {} seed {} aggregation {} length {} mended {}{}",
        d.mode.number(),
        d.seed,
        u8::from(d.aggregation),
        d.length,
        d.mended,
        Remark(seed)
    )?;
    Ok(())
}

pub(crate) fn show_refusal(rt: &impl Print, window: u64, fault: Fault) -> anyhow::Result<()> {
    let refusal = fault.refusal();
    println!(rt;
        "window {window}: refused {} at the {}, {}",
        refusal.number,
        refusal.layer,
        Spot(fault)
    )?;
    Ok(())
}
