// Words with spoiled octets, and each mender.
use crate::count::Count;
use crate::octets::fill;
use menders::{Full, Single};
use mending::{Mender, Still, Then, mend};
use words::{Change, WordFault, accept, encode};

// A message with its parity behind it.
fn codeword<const N: usize>() -> [u8; N] {
    let mut word = [0u8; N];
    if let Some((message, parity)) = word.split_last_chunk_mut::<16>() {
        fill(message, 3, 7);
        let _ = encode(message, parity);
    }
    word
}

// Spoils so many octets, from a place on.
fn spoil(word: &mut [u8], spoiled: usize, from: usize) {
    for (o, by) in word.iter_mut().skip(from).take(spoiled).zip(17..) {
        *o ^= by;
    }
}

// Whether a mender makes of the spoiled word what it should: the codeword within its reach, else a refusal and the word as it was.
fn mended<M: Mender + Drop, const N: usize>(
    mut mender: M,
    whole: &[u8; N],
    spoiled: usize,
    from: usize,
) -> bool {
    let mut word = *whole;
    spoil(&mut word, spoiled, from);
    let answer = mend(&mut mender, &mut word);
    let apart = polynomials::differences(&word, whole);
    if spoiled <= mender.reach() {
        answer == Ok(spoiled) && apart == 0
    } else {
        answer.is_err() && apart == spoiled
    }
}

// All menders at one word, number of spoiled octets and first place.
fn each<const N: usize>(count: &mut Count, whole: &[u8; N], spoiled: usize, from: usize) {
    count.note(mended(Still {}, whole, spoiled, from));
    count.note(mended(Single {}, whole, spoiled, from));
    count.note(mended(Full {}, whole, spoiled, from));
    let both = Then {
        first: Single {},
        second: Full {},
    };
    count.note(mended(both, whole, spoiled, from));
}

// Spoiled octets from the first place, around the middle, and up to the last.
fn places<const N: usize>(count: &mut Count, whole: &[u8; N], spoiled: usize) {
    let spare = N.saturating_sub(spoiled);
    for from in [0, spare / 2, spare] {
        each(count, whole, spoiled, from);
    }
}

pub(crate) fn menders_table() -> Count {
    let mut count = Count::default();
    let short = codeword::<17>();
    let long = codeword::<240>();
    for spoiled in [0usize, 1, 2, 7, 8, 9] {
        places(&mut count, &short, spoiled);
        places(&mut count, &long, spoiled);
    }
    count
}

const GOOD: Change = Change { place: 3, octet: 5 };

const WRONG: Change = Change { place: 4, octet: 5 };

const ZERO: Change = Change { place: 4, octet: 0 };

const OUTSIDE: Change = Change {
    place: 17,
    octet: 1,
};

// A good proposal, and hostile ones: one for each cause.
pub(crate) fn causes() -> Count {
    let mut count = Count::default();
    let mut word = codeword::<17>();
    word[3] ^= 5;
    count.note(accept(&word, &[GOOD]).is_ok());
    let hostile: [(&[Change], WordFault); 6] = [
        (&[], WordFault::Nothing),
        (&[GOOD; 9], WordFault::TooMany),
        (&[GOOD, OUTSIDE], WordFault::Outside),
        (&[GOOD, GOOD], WordFault::Twice),
        (&[GOOD, ZERO], WordFault::Zero),
        (&[WRONG], WordFault::NoCodeword),
    ];
    for (changes, cause) in hostile {
        count.note(accept(&word, changes) == Err(cause));
    }
    count
}
