// Menders: given a word, a mender proposes changes that would make a codeword of it.
ghost use Rattle.std.specs.Prelude.{◌≡◌, ℕ, max, List, None, Option};
ghost use Rattle.words.specs.declared.change.Change.{Change};
ghost use Rattle.mending.specs.Menders.{Mends, answer, Written, Layered};
ghost use Rattle.std.proofs.Common.{rules, arith};
ghost use Rattle.mending.specs.Layers.{layered_stays, layered_few, layered_words, layered_finds};

use words::{Change, accept};

// A mender's reach is the number of spoiled octets up to which it finds every difference from a codeword; it never varies.
// Its rule says which answers, as it stands, it may give to a word, and how it stands afterwards.
// On codewords, and beyond its reach, what it proposes is free.
pub trait Mender {
    ghost reach: { Self → ℕ };

    ghost rule: { Self → List ℕ → Option (List Change) → Self → Type 0 };

    fn reach(&self) -> usize
        ensures { result ≡ reach self.now };

    // Writes a proposal to the front of the buffer, with blank changes behind it, and answers how many changes it has;
    // none where nothing is proposed, and the whole buffer is then blank. The buffer is the caller's and of a fixed size, since there is no heap.
    fn propose(&mut self, word: &[u8], out: &mut [Change; 16]) -> Option<usize>
        ensures rule { rule self.old word.now (answer result out.new) self.new }
        ensures written { Written result out.new };

    ghost mends: { Mends reach rule };
}

// A mender that proposes nothing.
#[derive(Drop)]
pub struct Still {}

impl Mender for Still {
    ghost reach = { λ _. 0 };

    ghost rule = { λ s w a t. a ≡ None };

    ghost mends = { Prim.search rules };

    fn reach(&self) -> usize {
        0
    }

    fn propose(&mut self, _word: &[u8], out: &mut [Change; 16]) -> Option<usize> {
        *out = [Change::BLANK; 16];
        None
    }
}

// Two menders, one after the other: gives the first one's proposal if that is accepted, else asks the second and gives that one's.
#[derive(Drop)]
pub struct Then<A, B> {
    pub first: A,
    pub second: B,
}

impl<A: Mender, B: Mender> Mender for Then<A, B> {
    ghost reach = { λ s. max (A.Mender.reach s.first) (B.Mender.reach s.second) };

    ghost rule = { λ s w a t. Layered A.Mender.rule B.Mender.rule s.first s.second w a t.first t.second };

    ghost mends = { let ra = A.Mender.reach in
        let qa = A.Mender.rule in
        let rb = B.Mender.reach in
        let qb = B.Mender.rule in
        let ma = A.Mender.mends in
        let mb = B.Mender.mends in
        record {
          small = λ s. omega (arith, A.Mender.mends.small s.first, B.Mender.mends.small s.second);
          stays = λ s w a t l. layered_stays ra qa rb qb ma mb s.first t.first s.second t.second w a l;
          few = λ s w cs t l. layered_few ra qa rb qb ma mb s.first t.first s.second t.second w cs l;
          words_only = λ s w a t l. layered_words ra qa rb qb ma mb s.first t.first s.second t.second w a l;
          finds = λ s w c a t l. layered_finds ra qa rb qb ma mb s.first t.first s.second t.second w c a l;
        } };

    fn reach(&self) -> usize {
        self.first.reach().max(self.second.reach())
    }

    fn propose(&mut self, word: &[u8], out: &mut [Change; 16]) -> Option<usize> {
        if let Some(n) = self.first.propose(word, out)
            && accept(word, &out[..n]).is_ok()
        {
            return Some(n);
        }
        self.second.propose(word, out)
    }
}
