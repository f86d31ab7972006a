// A text's octets, line by line.
ghost use Rattle.std.specs.Prelude.{◌≡◌, ◌<◌, length, MatchOption};
ghost use Rattle.captures.specs.Lines.{place, before, behind, without_return, line_of};
ghost use Rattle.std.specs.Iterator.{at_most};

// The place of the first such octet.
fn place_of(octet: u8, text: &[u8]) -> Option<usize>
    ensures { MatchOption result (place octet text.now ≡ length text.now) (λ i. (i < length text.now) × (place octet text.now ≡ i)) }
{
    text.iter().position(|o| *o == octet)
}

// What stands before the first such octet, and what stands behind it. Where there is none, all stands before it.
#[tactic(auto, unfolding(crate::specs::Lines::before, crate::specs::Lines::behind))]
pub fn split_once(text: &[u8], octet: u8) -> (&[u8], &[u8])
    ensures front { result.0.now ≡ before octet text.now }
    ensures back { result.1.now ≡ behind octet text.now }
{
    match place_of(octet, text) {
        Some(place) => (&text[..place], &text[place + 1..]),
        None => (text, &[]),
    }
}

// A line without a carriage return at its end.
#[tactic(auto, unfolding(crate::specs::Lines::without_return))]
fn without_return(line: &[u8]) -> &[u8]
    ensures { result.now ≡ without_return line.now }
{
    line.strip_suffix(b"\r").unwrap_or(line)
}

// The first line, without its newline and a carriage return at its end, and the text behind it.
#[tactic(auto, unfolding(crate::specs::Lines::line_of))]
pub fn split_line(text: &[u8]) -> (&[u8], &[u8])
    ensures line { result.0.now ≡ line_of text.now }
    ensures rest { result.1.now ≡ behind 10 text.now }
{
    let (line, rest) = split_once(text, b'\n');
    (without_return(line), rest)
}

// The lines of a text, one after the other. The last one needs no newline.
#[derive(Drop)]
pub struct Lines<'a> {
    rest: &'a [u8],
}

impl<'a> Lines<'a> {
    pub fn new(text: &'a [u8]) -> Lines<'a>
        ensures { result.rest.now ≡ text.now }
    {
        Lines { rest: text }
    }
}

impl<'a> Iterator for Lines<'a> {
    type Item = &'a [u8];

    ghost next_gives = { λ s r t. MatchOption r ((length s.rest.now ≡ 0) × (t.rest.now ≡ s.rest.now)) (λ x. (0 < length s.rest.now) × (x.now ≡ line_of s.rest.now) × (t.rest.now ≡ behind 10 s.rest.now)) };

    ghost remaining = { λ s. at_most (length s.rest.now) };

    fn next(&mut self) -> Option<&'a [u8]> {
        let text = self.rest;
        if text.is_empty() {
            return None;
        }
        let (line, rest) = split_line(text);
        self.rest = rest;
        Some(line)
    }
}
