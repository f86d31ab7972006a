// A text cut into pieces at every octet of one value.
ghost use Rattle.std.specs.Prelude.{◌≡◌, ◌<◌, ◌≤◌, [], length, MatchOption, slice_index_or};
ghost use Rattle.spelling.specs.Pieces.{pieces};

// How many pieces the text has: one more than such octets.
pub fn count_pieces(text: &[u8], by: u8) -> usize
    ensures { result ≡ length (pieces by text.now) }
{
    text.split(|c| *c == by).count()
}

// Piece k of the text, from 0.
pub fn piece(text: &[u8], by: u8, k: usize) -> Option<&[u8]>
    ensures { MatchOption result (length (pieces by text.now) ≤ k) (λ u. (k < length (pieces by text.now)) × (u.now ≡ slice_index_or (pieces by text.now) k [])) }
{
    text.split(|c| *c == by).nth(k)
}
