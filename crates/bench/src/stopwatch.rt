// How long a piece of work takes, as a mean over many rounds.
use std::num::nearest_u64_to_f64;
use std::rt::Clock;
use std::time::Instant;

// How long one measurement goes on at least.
const SECONDS: f64 = 0.3;

// How many rounds pass between two looks at the clock.
const BATCH: u32 = 64;

// Does some rounds, and answers whether all of them went as they should.
fn batch<F: FnMut() -> bool>(round: &mut F) -> bool
    requires { (state : F) → F.pre state }
{
    for _ in 0..BATCH {
        if !round() {
            return false;
        }
    }
    true
}

// The nanoseconds that a round of work takes for each of its octets. A round answers whether it went as it should; none where one did not.
pub(crate) fn nanoseconds<F: FnMut() -> bool>(
    clock: &impl Clock,
    octets: u16,
    mut round: F,
) -> anyhow::Result<Option<f64>>
    requires { (state : F) → F.pre state }
{
    let start = Instant::now(clock)?;
    for batches in 1..u64::MAX {
        if !batch(&mut round) {
            return Ok(None);
        }
        let seconds = start.elapsed(clock)?.as_secs_f64();
        if seconds >= SECONDS {
            let rounds = nearest_u64_to_f64(batches) * BATCH as f64;
            return Ok(Some(seconds * 1e9 / (rounds * octets as f64)));
        }
    }
    Ok(None)
}
