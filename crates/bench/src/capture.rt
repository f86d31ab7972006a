// Reads a capture: every window of a text file, one after the other.
use crate::failed::Failed;
use crate::files::read_file;
use crate::outcome::{show_delivery, show_refusal};
use crate::summary::show_summary;
use captures::{Lines, SeedFault, Written, read_window, seed_fault};
use faults::{Delivery, Fault};
use lines::is_passed_over;
use menders::{Full, Single};
use mending::Then;
use station::Station;
use std::alloc::{AllocError, Global};

// A station at work on a capture, and what the station does not count itself.
#[derive(Drop)]
pub struct Listener {
    pub station: Station<Then<Single, Full>>,
    pub windows: u64,
    pub repeated: u64,
    pub skipped: u64,
    // The seed of the last delivered frame.
    before: Option<u8>,
}

impl Listener {
    fn new() -> Listener {
        Listener {
            station: Station::open(Then {
                first: Single {},
                second: Full {},
            }),
            windows: 0,
            repeated: 0,
            skipped: 0,
            before: None,
        }
    }

    // Reads one window.
    fn hear(
        &mut self,
        heap: Global,
        written: Written<'_>,
    ) -> Result<Result<Delivery, Fault>, AllocError> {
        let chips = written.chips(heap)?;
        let mut body = [0u8; 2048];
        let mut mac = [0u8; 10];
        self.windows = self.windows.saturating_add(1);
        Ok(
            self.station
                .read(written.channels, chips.as_slice(), &mut body, &mut mac),
        )
    }

    // Notes a delivered frame's seed, and answers what is wrong with it.
    fn note_seed(&mut self, seed: u8) -> Option<SeedFault> {
        let fault = seed_fault(self.before, seed);
        self.before = Some(seed);
        match fault {
            None => {}
            Some(SeedFault::Repeated) => self.repeated = self.repeated.saturating_add(1),
            Some(SeedFault::Skipped) => self.skipped = self.skipped.saturating_add(1),
        }
        fault
    }
}

fn show_window(
    rt: &(impl Print + Eprint + AllocGlobal),
    listener: &mut Listener,
    written: Written<'_>,
) -> anyhow::Result<()> {
    match listener.hear(rt.alloc(), written)? {
        Ok(d) => {
            let fault = listener.note_seed(d.seed);
            show_delivery(rt, listener.windows, d, fault)?;
        }
        Err(e) => show_refusal(rt, listener.windows, e)?,
    }
    if listener.windows % 100 == 0 {
        eprintln!(rt; "{} windows", listener.windows)?;
    }
    Ok(())
}

// Reads every line, and answers how many that should hold a window hold none.
fn show_lines(
    rt: &(impl Print + Eprint + AllocGlobal),
    listener: &mut Listener,
    text: &[u8],
) -> anyhow::Result<u64> {
    let mut bad = 0u64;
    for (number, line) in (1u64..)
        .zip(Lines::new(text))
        .filter(|(_, line)| !is_passed_over(line))
    {
        match read_window(line) {
            Ok(written) => show_window(rt, listener, written)?,
            Err(fault) => {
                bad = bad.saturating_add(1);
                println!(rt; "line {number}: {fault}")?;
            }
        }
    }
    Ok(bad)
}

// Reads every line, and shows what the windows came to, if there are any. Answers how many lines that should hold a window hold none.
pub(crate) fn show_capture(
    rt: &(impl Print + Eprint + AllocGlobal),
    text: &[u8],
) -> anyhow::Result<(Listener, u64)> {
    let mut listener = Listener::new();
    let bad = show_lines(rt, &mut listener, text)?;
    if listener.windows > 0 {
        show_summary(rt, &listener)?;
    }
    Ok((listener, bad))
}

pub(crate) fn read_capture(rt: &HostRuntime, path: &str) -> anyhow::Result<()> {
    let text = read_file(rt, path)?;
    let (listener, bad) = show_capture(rt, text.as_slice())?;
    if listener.windows == 0 {
        eprintln!(rt; "{path} holds no window")?;
        return Err(Failed.into());
    }
    if bad == 0 { Ok(()) } else { Err(Failed.into()) }
}
