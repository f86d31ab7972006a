// The desk: it carries out a script line by line.
ghost use Rattle.std.specs.Prelude.{◌≡◌, ◌++◌, IfOk, None, Ok, string_bytes, OnOk};
ghost use Rattle.calls.specs.Calls.{said, station_view, call_said};
ghost use Rattle.answers.specs.Texts.{answer_text};
ghost use Rattle.script.specs.Performed.{opened_text, Answers, wrong_line, Obeyed};

use crate::part_calls::{block_part, header_part};
use crate::station_calls::on_station;
use crate::word_calls::{accept, check_octets, encode_message, judge_word, mend_word, propose};
use answers::{Answer, write_answer};
use calls::{Call, StationCall, read_call};
use chosen::Mending;
use lines::{Stop, Wrong, call_part, is_passed_over};
use mending::Mender;
use station::Station;
use std::alloc::{AllocError, Global};
use writing::put;

// What is wrong with a line.
fn write_wrong(out: &mut String, line: usize, wrong: Wrong) -> Result<(), AllocError>
    ensures { OnOk result (string_bytes out.new ≡ string_bytes out.old ++ wrong_line line wrong) }
{
    put(out, format_args!("error {line}: {wrong}"))
}

// What a line was.
#[derive(Clone, Copy, PartialEq, Eq, Debug)]
pub enum Outcome {
    // Empty, or a comment: nothing was written.
    PassedOver,
    // A call, whose answer was written.
    Answered,
    // No call: what is wrong was written.
    NoCall,
}

// Holds the station that was opened last.
#[derive(Drop)]
pub struct Desk {
    station: Option<Station<Mending>>,
}

impl Desk {
    // No station is open yet.
    pub fn new() -> Desk
        ensures { result.station ≡ None }
    {
        Desk { station: None }
    }

    fn open(&mut self, mender: Mending) -> Answer
        ensures { answer_text result ≡ opened_text mender }
    {
        let reach = mender.reach();
        self.station = Some(Station::open(mender));
        Answer::Opened(reach)
    }

    fn perform_on_station(&mut self, heap: Global, call: StationCall) -> Result<Answer, Stop>
        ensures { Answers (Ok (station_view call)) result }
    {
        let station = self.station.as_mut().ok_or(Wrong::Station)?;
        Ok(on_station(heap, station, call)?)
    }

    fn perform(&mut self, heap: Global, call: Call) -> Result<Answer, Stop>
        ensures { Answers (Ok (said call)) result }
    {
        let answer = match call {
            Call::Open(mender) => self.open(mender),
            Call::Header(channels, chips) => header_part(heap, channels, chips.as_slice())?,
            Call::Block(mode, number, chips) => block_part(heap, mode, number, chips.as_slice())?,
            Call::Encode(message, room) => encode_message(heap, message.as_slice(), room)?,
            Call::Codeword(word) => judge_word(word.as_slice()),
            Call::Hcs(octets) => check_octets(heap, octets.as_slice())?,
            Call::Propose(mender, word) => propose(heap, mender, word.as_slice())?,
            Call::Accept(word, changes) => accept(word, changes.as_slice()),
            Call::Mend(mender, word) => mend_word(mender, word),
            Call::Station(call) => self.perform_on_station(heap, call)?,
        };
        Ok(answer)
    }

    fn answer(&mut self, heap: Global, text: &[u8]) -> Result<Answer, Stop>
        ensures { Answers (call_said text.now) result }
    {
        let call = read_call(heap, text)?;
        self.perform(heap, call)
    }

    // Carries out a line, given without its newline, and writes the answer behind the text.
    pub fn obey(
        &mut self,
        heap: Global,
        number: usize,
        line: &[u8],
        out: &mut String,
    ) -> Result<Outcome, AllocError>
        ensures { IfOk result (λ o. Obeyed number line.now o (string_bytes out.old) (string_bytes out.new)) }
    {
        if is_passed_over(line) {
            return Ok(Outcome::PassedOver);
        }
        match self.answer(heap, call_part(line)) {
            Ok(answer) => {
                write_answer(out, &answer)?;
                Ok(Outcome::Answered)
            }
            Err(Stop::Wrong(wrong)) => {
                write_wrong(out, number, wrong)?;
                Ok(Outcome::NoCall)
            }
            Err(Stop::Memory(e)) => Err(e),
        }
    }
}
