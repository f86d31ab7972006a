// The station's calls: opening, building, reading, and questions about the tally.
ghost use Rattle.std.specs.Prelude.{◌≡◌, List};
ghost use Rattle.account.specs.Asks.{Asked};
ghost use Rattle.station.specs.Runs.{Call, build as building, read as reading, ask_mode, ask_refusal, Opened, tally_read, Step, Runs};
ghost use Rattle.station.specs.Law.{Law, ComesBack};

use crate::station::Station;
use crate::tally::{Row, Tally};
use faults::{Built, Delivery, Fault};
use frames::write_frame;
use mending::Mender;
use receiver::receive;

impl<M: Mender> Station<M> {
    // A station over any mender: seed 0, and every count 0. Whatever is then called, in any order, keeps the law.
    pub fn open(mender: M) -> Station<M>
        ensures opened { Opened result mender }
        ensures law { (calls : List Call) (last : Station M) → Runs M.Mender.rule result calls last → Law M.Mender.rule (M.Mender.reach mender) mender calls }
        ensures reads_back { (calls : List Call) (last : Station M) → Runs M.Mender.rule result calls last → ComesBack calls }
    {
        Station {
            seed: 0,
            tally: Tally::default(),
            mender,
        }
    }

    // Writes the frame of the arguments under the station's seed, which then rises by one; a build that is turned down leaves the seed.
    pub fn build(
        &mut self,
        mode: u8,
        aggregation: bool,
        mac: &[u8],
        body: &mut [u8],
        chips: &mut [u8],
    ) -> Result<Built, Fault>
        ensures { Step M.Mender.rule self.old (building (record { mode = mode; aggregation = aggregation; mac = mac.now; body = body.old; chips = chips.old; answer = result; body_after = body.new; chips_after = chips.new })) self.new }
    {
        let seed = self.seed;
        match write_frame(mode, seed, aggregation, mac, body, chips) {
            Ok(n) => {
                self.seed = (seed + 1) % 16;
                Ok(Built { seed, chips: n })
            }
            Err(e) => {
                let fault = Fault::Door(e);
                self.tally.refuse(fault);
                Err(fault)
            }
        }
    }

    // Reads a window of n channels: delivers its frame, or answers with the first row that applies.
    pub fn read(
        &mut self,
        n: u8,
        window: &[u8],
        body: &mut [u8],
        mac: &mut [u8],
    ) -> Result<Delivery, Fault>
        ensures { (asks : List Asked) × Step M.Mender.rule self.old (reading (record { channels = n; window = window.now; body = body.old; mac = mac.old; asks = asks; answer = result; body_after = body.new; mac_after = mac.new })) self.new }
    {
        let answer = receive(&mut self.mender, n, window, body, mac);
        self.note(answer);
        answer
    }

    // Enters a read's answer into the tally.
    fn note(&mut self, answer: Result<Delivery, Fault>)
        ensures tally { self.new.tally ≡ tally_read self.old.tally answer }
        ensures seed { self.new.seed ≡ self.old.seed }
        ensures mender { self.new.mender ≡ self.old.mender }
    {
        match answer {
            Ok(d) => self.tally.deliver(d.mode, d.mended),
            Err(fault) => self.tally.refuse(fault),
        }
    }

    // How many windows were delivered in a mode, and how many octets were mended in them; none for another number than 1 to 7.
    pub fn delivered(&self, mode: u8) -> Option<Row>
        ensures { Step M.Mender.rule self.now (ask_mode mode result) self.now }
    {
        self.tally.mode(mode)
    }

    // How many builds and reads a refusal turned down; none for another number than 1 to 19.
    pub fn refused(&self, number: u8) -> Option<u32>
        ensures { Step M.Mender.rule self.now (ask_refusal number result) self.now }
    {
        self.tally.refusal(number)
    }

    // Ends the station's life and gives the mender back.
    pub fn close(self) -> M
        ensures { result ≡ self.mender }
    {
        let Station { mender, .. } = self;
        mender
    }
}
