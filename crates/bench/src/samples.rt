// Writes a capture of built frames.
use crate::command::Frames;
use crate::files::read_file;
use crate::frame::MAC;
use anyhow::bail;
use menders::Full;
use station::Station;
use std::alloc::{AllocError, Global};

// As much of the file's octets as frame k, from 0, carries: 2,048 to a frame, over and over.
fn share(octets: &[u8], k: u32) -> &[u8] {
    let shares = octets.chunks(2048).len().max(1);
    let start = 2048 * (k as usize % shares);
    octets
        .get(start..)
        .and_then(|rest| rest.chunks(2048).next())
        .unwrap_or_default()
}

// The body of frame k, from 0.
fn body_of(heap: Global, file: Option<&[u8]>, k: u32) -> Result<Vec<u8>, AllocError> {
    match file {
        Some(octets) => share(octets, k).to_vec(heap),
        None => {
            Ok(format!(in heap; "This is frame {} of a capture.", u64::from(k) + 1)?.into_bytes())
        }
    }
}

// The line of a window: the number of channels, a space, and the chips as digits.
pub(crate) fn window_line(
    heap: Global,
    channels: usize,
    chips: &[u8],
) -> Result<Vec<u8>, AllocError> {
    let mut line = format!(in heap; "{channels} ")?.into_bytes();
    line.extend(chips.iter().map(|c| b'0' + *c % 2))?;
    line.push(b'\n')?;
    Ok(line)
}

// Builds frame k, from 0, and shows it as a line.
fn show_frame(
    rt: &(impl Print + AllocGlobal),
    station: &mut Station<Full>,
    asked: Frames<'_>,
    file: Option<&[u8]>,
    k: u32,
) -> anyhow::Result<()> {
    let mode = asked.mode;
    let mut body = body_of(rt.alloc(), file, k)?;
    let mut chips = vec![in rt.alloc(); 0u8; 50176]?;
    let Ok(built) = station.build(
        mode.number(),
        false,
        MAC,
        body.as_mut_slice(),
        chips.as_mut_slice(),
    ) else {
        bail!("a frame is not built");
    };
    println!(rt;
        "# frame {}: mode {} seed {} length {}",
        u64::from(k) + 1,
        mode.number(),
        built.seed,
        body.len()
    )?;
    chips.truncate(built.chips);
    let line = window_line(rt.alloc(), mode.channels(), chips.as_slice())?;
    rt.write_all(line.as_slice())?;
    Ok(())
}

fn show_frames(
    rt: &(impl Print + AllocGlobal),
    asked: Frames<'_>,
    file: Option<&[u8]>,
) -> anyhow::Result<()> {
    let mut station = Station::open(Full {});
    // By number, which the frame's line and body say.
    for k in 0..asked.count {
        show_frame(rt, &mut station, asked, file, k)?;
    }
    Ok(())
}

pub(crate) fn write_frames(rt: &HostRuntime, asked: Frames<'_>) -> anyhow::Result<()> {
    match asked.file {
        Some(path) => show_frames(rt, asked, Some(read_file(rt, path)?.as_slice())),
        None => show_frames(rt, asked, None),
    }
}
