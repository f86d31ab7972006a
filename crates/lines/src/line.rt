// Lines: which are passed over, and what of the others is read.
ghost use Rattle.std.specs.Prelude.{◌≡◌, ◌+◌, ◌-◌, ◌<◌, true, length, MatchOption};
ghost use Rattle.lines.specs.Lines.{passed_over, begins_comment, NoneBelow, uncommented};

// Whether a line gets no answer: it is empty, or its first octet is a number sign.
pub fn is_passed_over(line: &[u8]) -> bool
    ensures { result ≡ passed_over line.now }
{
    line.is_empty() || line[0] == b'#'
}

// The place of the first space that a number sign follows.
fn comment_place(line: &[u8]) -> Option<usize>
    ensures { MatchOption result (NoneBelow (length line.now - 1) line.now) (λ i. (i + 1 < length line.now) × (begins_comment line.now i ≡ true) × NoneBelow i line.now) }
{
    line.windows(2).position(|pair| pair == b" #".as_slice())
}

// What stands before a comment, which begins with the first space that a number sign follows.
pub fn call_part(line: &[u8]) -> &[u8]
    ensures { result.now ≡ uncommented line.now }
{
    match comment_place(line) {
        Some(place) => &line[..place],
        None => line,
    }
}
