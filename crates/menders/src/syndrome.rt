// The powers of alpha, and the values of polynomials at them.
ghost use Rattle.std.specs.Prelude.{◌≡◌, ℕ, ◌<◌, slice_index};
ghost use Rattle.elements.specs.Octets.{octets, power};
ghost use Rattle.coding.specs.Sums.{horner, eval_low};
ghost use Rattle.coding.specs.Decoder.{syndrome as syndrome_of};

use elements::Element;

// Alpha to the power of each place that a word can have.
#[derive(Drop)]
pub(crate) struct Powers {
    row: [u8; 240],
    ghost powers: { (k : ℕ) → k < 240 → slice_index row k ≡ power k },
}

impl Powers {
    pub(crate) fn new() -> Self {
        let mut row = [0u8; 240];
        let mut next = 1u8;
        for a in row.iter_mut() {
            *a = next;
            next = next.mul(2);
        }
        Powers { row }
    }

    pub(crate) fn at(&self, k: usize) -> u8
        requires { k < 240 }
        ensures { result ≡ power k }
    {
        self.row[k]
    }
}

// The polynomial's value at x, the highest coefficient first.
pub(crate) fn high_value(row: &[u8], x: u8) -> u8
    ensures { result ≡ horner octets 0 row.now x }
{
    row.iter().fold(0u8, |sum, a| sum.mul(x).add(*a))
}

// The polynomial's value at x, the lowest coefficient first.
pub(crate) fn low_value(row: &[u8], x: u8) -> u8
    ensures { result ≡ eval_low octets row.now x }
{
    row.iter().rev().fold(0u8, |sum, a| a.add(x.mul(sum)))
}

// The word's values at alpha^1 to alpha^16.
pub(crate) fn syndromes(word: &[u8], powers: &Powers) -> [u8; 16]
    ensures { (k : ℕ) → k < 16 → slice_index result k ≡ syndrome_of octets power word.now k }
{
    let mut row = [0u8; 16];
    for (k, s) in row.iter_mut().enumerate() {
        *s = high_value(word, powers.at(k + 1));
    }
    row
}
