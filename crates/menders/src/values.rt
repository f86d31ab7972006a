// The places that a vector locates, and what is wrong at each.
ghost use Rattle.std.specs.Prelude.{◌≡◌, ◌<◌, ◌≤◌, [], ◌∷◌, ◌++◌, length};
ghost use Rattle.elements.specs.Octets.{octets, power};
ghost use Rattle.coding.specs.Sums.{times_root, from_roots};
ghost use Rattle.coding.specs.Decoder.{roots, others, magnitude as magnitude_of, correction as correction_of};
ghost use Rattle.menders.specs.Locators.{entries};
ghost use Rattle.menders.specs.Repairs.{repairs};

use crate::kernel::dot;
use crate::syndrome::{Powers, low_value};
use arrayvec::ArrayVec;
use elements::Element;
use words::Change;

// What is wrong in a word of `len` octets: its syndromes, a vector that locates the wrong places, and the locators that were found.
#[derive(Drop)]
pub(crate) struct Errors<'a> {
    syndromes: &'a [u8; 16],
    vector: &'a [u8],
    powers: &'a Powers,
    len: usize,
    found: ArrayVec<u8, 8>,
    ghost short: { len ≤ 240 },
    ghost few: { length found.items ≤ 8 },
    ghost all: { found.items ≡ roots octets power vector.now len },
}

// Those of the first n powers of alpha at which the vector vanishes, the highest first.
fn find_roots(vector: &[u8], powers: &Powers, n: usize) -> ArrayVec<u8, 8>
    requires short { n ≤ 240 }
    requires few { length (roots octets power vector.now n) ≤ 8 }
    ensures { result.items ≡ roots octets power vector.now n }
{
    let mut found = ArrayVec::new();
    for k in (0..n).rev() {
        let y = powers.at(k);
        if low_value(vector, y) == 0 {
            found.push(y);
        }
    }
    found
}

// Multiplies the polynomial, the lowest coefficient first, by x + y, but for the highest coefficient, which it answers.
fn times_root_below(row: &mut [u8], y: u8) -> u8
    ensures { row.new ++ (result ∷ []) ≡ times_root octets y 0 row.old }
{
    let mut carry = 0u8;
    for a in row.iter_mut() {
        let old = *a;
        *a = carry.add(y.mul(old));
        carry = old;
    }
    carry
}

// Multiplies the polynomial, the lowest coefficient first, by x + y.
fn times_root(row: &mut ArrayVec<u8, 9>, y: u8)
    requires { length row.old.items < 9 }
    ensures { row.new.items ≡ times_root octets y 0 row.old.items }
{
    let highest = times_root_below(row, y);
    row.push(highest);
}

impl<'a> Errors<'a> {
    pub(crate) fn locate(
        syndromes: &'a [u8; 16],
        vector: &'a [u8],
        powers: &'a Powers,
        len: usize,
    ) -> Self
        requires short { len ≤ 240 }
        requires few { length (roots octets power vector.now len) ≤ 8 }
        ensures syndromes { result.syndromes.now ≡ syndromes.now }
        ensures vector { result.vector.now ≡ vector.now }
        ensures len { result.len ≡ len }
    {
        Errors {
            syndromes,
            vector,
            powers,
            len,
            found: find_roots(vector, powers, len),
        }
    }

    // The product of x + z over each z that was found, but y.
    fn others_product(&self, y: u8) -> ArrayVec<u8, 9>
        ensures { result.items ≡ from_roots octets (others octets y self.now.found.items) }
    {
        let mut product = ArrayVec::new();
        product.push(1);
        for z in self.found.iter().rev() {
            if *z != y {
                times_root(&mut product, *z);
            }
        }
        product
    }

    // What is wrong at the locator y, if each place where something is wrong was found.
    fn magnitude(&self, y: u8) -> u8
        ensures { result ≡ magnitude_of octets (entries self.now.syndromes.now) self.now.found.items y }
    {
        let syndromes = self.syndromes;
        let product = self.others_product(y);
        let value = low_value(&product, y);
        dot(syndromes, &product).mul(y.mul(value).inv())
    }

    // What is wrong k places before the word's end.
    fn correction(&self, k: usize) -> u8
        requires { k < self.now.len }
        ensures { result ≡ correction_of octets (entries self.now.syndromes.now) self.now.vector.now self.now.found.items (power k) }
    {
        let y = self.powers.at(k);
        if self.found.contains(&y) {
            self.magnitude(y)
        } else {
            0
        }
    }

    // What is wrong as changes, in ascending place.
    #[tactic(auto, using(crate::proofs::Findings::room, crate::proofs::Findings::added, crate::proofs::Findings::passed_over))]
    pub(crate) fn changes(&self) -> ArrayVec<Change, 8>
        ensures { let e = self.now in result.items
            ≡ repairs (correction_of octets (entries e.syndromes.now) e.vector.now (roots octets power e.vector.now e.len)) e.len e.len }
    {
        let mut changes = ArrayVec::new();
        for k in (0..self.len).rev() {
            let octet = self.correction(k);
            if octet != 0 {
                changes.push(Change {
                    place: self.len - 1 - k,
                    octet,
                });
            }
        }
        changes
    }
}
