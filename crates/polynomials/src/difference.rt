// How far two rows of elements stand apart.
ghost use Rattle.std.specs.Prelude.{◌≡◌};
ghost use Rattle.polynomials.specs.Differences.{differing};

use elements::Element;

// In how many places the two rows differ, up to the end of the shorter.
pub fn differences<E: Element>(a: &[E], b: &[E]) -> usize
    ensures { result ≡ differing E.ops a.now b.now }
{
    let mut n = 0;
    // With the index, which tells where the shorter row ends.
    for (i, x) in a.iter().enumerate() {
        if i < b.len() && !x.same(b[i]) {
            n += 1;
        }
    }
    n
}
