// Driving a station: a list of calls, one after the other.
ghost use Rattle.std.specs.Prelude.{◌≡◌, List, map, length, Some, None, ◌==◌};
ghost use Rattle.station.specs.Runs.{Call, Runs};
ghost use Rattle.station.specs.Orders.{Obeyed, Drives, answer_of};

use crate::order::{Answer, Order};
use crate::station::Station;
use mending::Mender;

fn obey<M: Mender>(
    station: &mut Station<M>,
    order: Order,
    mac: &mut [u8],
    body: &mut [u8],
    chips: &mut [u8],
) -> Answer
    ensures { Obeyed M.Mender.rule station.old order (record { mac = mac.entry.now; body = body.old; chips = chips.old }) result (record { mac = mac.exit.now; body = body.new; chips = chips.new }) station.new }
{
    match order {
        Order::Build(mode, aggregation) => Answer::Built(station.build(
            mode,
            aggregation,
            mac,
            body,
            chips,
        )),
        Order::Read(n) => Answer::Read(station.read(n, chips, body, mac)),
        Order::Delivered(number) => Answer::Delivered(station.delivered(number)),
        Order::Refused(number) => Answer::Refused(station.refused(number)),
    }
}

// Makes the calls on the common buffers, writes each answer into the log, and answers how many calls there were.
// None, with nothing done, if the log has not just as many places as there are orders.
pub fn drive<M: Mender>(
    station: &mut Station<M>,
    orders: &[Order],
    mac: &mut [u8],
    body: &mut [u8],
    chips: &mut [u8],
    log: &mut [Answer],
) -> Option<usize>
    ensures driven { Drives M.Mender.rule (length log.old == length orders.now) station.old orders.now (record { mac = mac.entry.now; body = body.old; chips = chips.old }) log.old result (record { mac = mac.exit.now; body = body.new; chips = chips.new }) log.new station.new }
    ensures run { result ≡ Some (length orders.now) → ((calls : List Call) × Runs M.Mender.rule station.old calls station.new × (map answer_of calls ≡ log.new)) }
{
    if log.len() != orders.len() {
        return None;
    }
    // Written by index, since a proof knows nothing of what is written through a zipped `iter_mut`.
    for (i, order) in orders.iter().enumerate() {
        log[i] = obey(station, *order, mac, body, chips);
    }
    Some(orders.len())
}
