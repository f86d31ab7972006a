// What a capture came to.
use crate::capture::Listener;

// How many windows were delivered, in all modes.
fn delivered(listener: &Listener) -> u64 {
    (1..=7u8)
        .filter_map(|mode| listener.station.delivered(mode))
        .fold(0u64, |all, row| all.saturating_add(u64::from(row.windows)))
}

// How many windows were refused, by all refusals.
fn refused(listener: &Listener) -> u64 {
    (1..=19u8)
        .filter_map(|number| listener.station.refused(number))
        .fold(0u64, |all, count| all.saturating_add(u64::from(count)))
}

// A line for each mode that has deliveries.
fn show_modes(rt: &impl Print, listener: &Listener) -> anyhow::Result<()> {
    for mode in 1..=7u8 {
        if let Some(row) = listener.station.delivered(mode)
            && row.windows > 0
        {
            println!(rt;
                "mode {mode}: {} delivered, {} octets mended",
                row.windows, row.octets
            )?;
        }
    }
    Ok(())
}

// A line for each refusal that was given.
fn show_refusals(rt: &impl Print, listener: &Listener) -> anyhow::Result<()> {
    for number in 1..=19u8 {
        if let Some(count) = listener.station.refused(number)
            && count > 0
        {
            println!(rt; "refusal {number}: {count}")?;
        }
    }
    Ok(())
}

pub(crate) fn show_summary(rt: &impl Print, listener: &Listener) -> anyhow::Result<()> {
    println!(rt;
        "{} windows, {} delivered, {} refused",
        listener.windows,
        delivered(listener),
        refused(listener)
    )?;
    show_modes(rt, listener)?;
    show_refusals(rt, listener)?;
    println!(rt;
        "seed faults: {} repeated, {} skipped",
        listener.repeated, listener.skipped
    )?;
    Ok(())
}
