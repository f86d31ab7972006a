// What each mender proposes for a word with some octets spoiled.
use crate::spoil::spoil_some;
use crate::word::page_word;
use menders::{Full, Single};
use mending::{Mender, Still, Then};
use std::fmt;
use words::{Change, accept};

// Changes, each as its place and its octet.
#[derive(Clone, Copy)]
struct Changes<'a>(&'a [Change]);

impl fmt::Display for Changes<'_> {
    fn fmt<W: fmt::Write>(&self, f: &mut fmt::Formatter<W>) -> fmt::Result {
        for c in self.0 {
            write!(f, " {}:{:02x}", c.place, c.octet)?;
        }
        Ok(())
    }
}

// The proposal of one mender, and whether it is accepted.
fn show_proposal<M: Mender>(
    rt: &impl Print,
    name: &str,
    mender: &mut M,
    word: &[u8],
) -> anyhow::Result<()> {
    let mut out = [Change::BLANK; 16];
    let Some(n) = mender.propose(word, &mut out) else {
        println!(rt; "    {name:<18} nothing")?;
        return Ok(());
    };
    let changes = &out[..n];
    print!(rt; "    {name:<18}{}", Changes(changes))?;
    match accept(word, changes) {
        Ok(()) => println!(rt; "  accepted")?,
        Err(e) => println!(rt; "  not accepted, cause {}", e.cause())?,
    }
    Ok(())
}

pub(crate) fn show_mending(rt: &impl Print) -> anyhow::Result<()> {
    println!(rt; "Menders")?;
    for count in [1usize, 2, 8, 9] {
        let mut word = page_word();
        spoil_some(&mut word, count);
        println!(rt; "  {count} octets spoiled")?;
        show_proposal(rt, "still", &mut Still {}, &word)?;
        show_proposal(rt, "single", &mut Single {}, &word)?;
        show_proposal(rt, "full", &mut Full {}, &word)?;
        let mut both = Then {
            first: Single {},
            second: Full {},
        };
        show_proposal(rt, "single, then full", &mut both, &word)?;
    }
    Ok(())
}
