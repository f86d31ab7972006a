// Menders by their names: `still`, `single`, `full`, and `then(A,B)` for two, one after the other.
ghost use Rattle.std.specs.Prelude.{◌≡◌, ℕ, ◌<◌, true, false, List, length, IfSome, Some, None, Option, MatchOption};
ghost use Rattle.chosen.specs.Names.{leaf_named, pile_named, deeper as deeper_by, parts_at, comma, is_then, inner, sides as sides_of};

use crate::leaf::Leaf;
use crate::pile::Pile;
use mending::Then;

// What a text may name.
pub trait Named: Sized {
    ghost named: { List ℕ → Option Self };

    // What the text names, if it names one.
    fn from_name(text: &[u8]) -> Option<Self>
        ensures { result ≡ named text.now };
}

impl Named for Leaf {
    ghost named = { leaf_named };

    fn from_name(text: &[u8]) -> Option<Leaf> {
        match text {
            b"still" => Some(Leaf::Still),
            b"single" => Some(Leaf::Single),
            b"full" => Some(Leaf::Full),
            _ => None,
        }
    }
}

// How many parentheses are open behind an octet.
fn deeper(depth: usize, octet: u8) -> usize
    requires { depth < 18446744073709551615 }
    ensures { result ≡ deeper_by depth octet }
{
    match octet {
        b'(' => depth + 1,
        b')' => depth.saturating_sub(1),
        _ => depth,
    }
}

// Whether an octet is a comma in no parentheses.
fn parts(depth: usize, octet: u8) -> bool
    ensures { result ≡ parts_at depth octet }
{
    octet == b',' && depth == 0
}

// The place of the first comma that stands in no parentheses.
fn first_comma(text: &[u8]) -> Option<usize>
    ensures place { result ≡ comma 0 0 text.now }
    ensures within { IfSome result (λ p. p < length text.now) }
{
    let mut depth = 0usize;
    // No `position`: a proof knows nothing of a closure's answers that counts the depth.
    for (i, &c) in text.iter().enumerate() {
        if parts(depth, c) {
            return Some(i);
        }
        depth = deeper(depth, c);
    }
    None
}

// What stands between the parentheses of `then(..)`.
fn inside(text: &[u8]) -> Option<&[u8]>
    ensures { MatchOption result (is_then text.now ≡ false) (λ u. (is_then text.now ≡ true) × (u.now ≡ inner text.now)) }
{
    text.strip_prefix(b"then(")?.strip_suffix(b")")
}

// A and B of `then(A,B)`.
fn sides(text: &[u8]) -> Option<(&[u8], &[u8])>
    ensures { MatchOption result (sides_of text.now ≡ None) (λ p. sides_of text.now ≡ Some (p.0.now, p.1.now)) }
{
    let between = inside(text)?;
    let place = first_comma(between)?;
    Some((&between[..place], &between[place + 1..]))
}

impl<M: Named + Drop> Named for Pile<M> {
    ghost named = { pile_named M.Named.named };

    fn from_name(text: &[u8]) -> Option<Pile<M>> {
        let Some((a, b)) = sides(text) else {
            return M::from_name(text).map(Pile::One);
        };
        let first = M::from_name(a)?;
        let second = M::from_name(b)?;
        Some(Pile::Two(Then { first, second }))
    }
}
