// Answers as text.
ghost use Rattle.std.specs.Prelude.{◌≡◌, ◌++◌, Some, string_bytes, OnOk};
ghost use Rattle.std.specs.Fmt.{WritesOnOk};
ghost use Rattle.answers.specs.Texts.{layer_name, built_text, delivered_text, cause_text, left_text, refused_text, answer_text};

use crate::answer::Answer;
use buffers::Buffers;
use faults::{Built, Delivery};
use std::alloc::AllocError;
use std::fmt;
use words::{Layer, Refusal, WordFault};
use writing::{Changes, Chips, Octets, put};

fn layer_name(layer: Layer) -> &'static str
    ensures { result.now ≡ layer_name layer }
{
    match layer {
        Layer::WordCoder => "word-coder",
        Layer::Door => "door",
        Layer::Preamble => "preamble",
        Layer::Header => "header",
        Layer::Payload => "payload",
    }
}

fn fmt_built<W: fmt::Write>(
    f: &mut fmt::Formatter<W>,
    built: Built,
    buffers: Buffers,
    chips: &[u8],
) -> fmt::Result
    ensures { WritesOnOk W.write_str_gives f.old result (built_text built buffers chips.now) f.new }
{
    write!(
        f,
        "built seed={} chips={} buffers={buffers} {}",
        built.seed,
        built.chips,
        Chips(chips)
    )
}

// How the frame was sent, how it was read, and the MAC header and the body.
fn fmt_delivered<W: fmt::Write>(
    f: &mut fmt::Formatter<W>,
    d: Delivery,
    buffers: Buffers,
    mac: &[u8],
    body: &[u8],
) -> fmt::Result
    ensures { WritesOnOk W.write_str_gives f.old result (delivered_text d buffers mac.now body.now) f.new }
{
    write!(
        f,
        "delivered mode={} seed={} aggregation={}",
        d.mode.number(),
        d.seed,
        u8::from(d.aggregation)
    )?;
    write!(
        f,
        " length={} mended={} buffers={buffers}",
        d.length, d.mended
    )?;
    write!(f, " mac={} body={}", Octets(mac), Octets(body))
}

// A word's cause, where there is one.
#[derive(Clone, Copy)]
struct Cause(Option<WordFault>);

impl fmt::Display for Cause {
    ghost output = { λ c. Some (cause_text c.0) };

    fn fmt<W: fmt::Write>(&self, f: &mut fmt::Formatter<W>) -> fmt::Result {
        match self.0 {
            Some(fault) => write!(f, " cause={}", fault.cause()),
            None => Ok(()),
        }
    }
}

// The buffers that a call left, where it has some.
#[derive(Clone, Copy)]
struct Left(Option<Buffers>);

impl fmt::Display for Left {
    ghost output = { λ l. Some (left_text l.0) };

    fn fmt<W: fmt::Write>(&self, f: &mut fmt::Formatter<W>) -> fmt::Result {
        match self.0 {
            Some(left) => write!(f, " buffers={left}"),
            None => Ok(()),
        }
    }
}

fn fmt_refused<W: fmt::Write>(
    f: &mut fmt::Formatter<W>,
    refusal: Refusal,
    cause: Option<WordFault>,
    buffers: Option<Buffers>,
) -> fmt::Result
    ensures { WritesOnOk W.write_str_gives f.old result (refused_text refusal cause buffers) f.new }
{
    write!(
        f,
        "refused number={} layer={} place={}{}{}",
        refusal.number,
        layer_name(refusal.layer),
        refusal.place,
        Cause(cause),
        Left(buffers)
    )
}

impl fmt::Display for Answer {
    ghost output = { λ a. Some (answer_text a) };

    fn fmt<W: fmt::Write>(&self, f: &mut fmt::Formatter<W>) -> fmt::Result {
        match self {
            Answer::Opened(reach) => write!(f, "opened reach={reach}"),
            Answer::Built(built, buffers, chips) => {
                fmt_built(f, *built, *buffers, chips.as_slice())
            }
            Answer::Delivered(d, buffers, mac, body) => {
                fmt_delivered(f, *d, *buffers, mac.as_slice(), body.as_slice())
            }
            Answer::Row(mode, windows, octets) => {
                write!(f, "mode {mode} windows={windows} octets={octets}")
            }
            Answer::Count(number, count) => write!(f, "refusal {number} count={count}"),
            Answer::Nothing => write!(f, "none"),
            Answer::Part(place, chips) => write!(
                f,
                "part place={place} chips={} {}",
                chips.len(),
                Chips(chips.as_slice())
            ),
            Answer::Parity(parity) => write!(f, "parity {}", Octets(parity.as_slice())),
            Answer::Codeword(true) => write!(f, "yes"),
            Answer::Codeword(false) => write!(f, "no"),
            Answer::Hcs(octets) => write!(f, "hcs {}", Octets(octets)),
            Answer::Proposed(changes) => write!(f, "proposed {}", Changes(changes.as_slice())),
            Answer::NotProposed => write!(f, "nothing"),
            Answer::Accepted(word) => write!(f, "accepted {}", Octets(word.as_slice())),
            Answer::Whole => write!(f, "codeword"),
            Answer::Mended(word) => write!(f, "mended {}", Octets(word.as_slice())),
            Answer::Unmended(fault) => write!(f, "unmended cause={}", fault.cause()),
            Answer::Refused(refusal, cause, buffers) => fmt_refused(f, *refusal, *cause, *buffers),
        }
    }
}

// The answer behind the text.
pub fn write_answer(out: &mut String, answer: &Answer) -> Result<(), AllocError>
    ensures { OnOk result (string_bytes out.new ≡ string_bytes out.old ++ answer_text answer.now) }
{
    put(out, answer)
}
