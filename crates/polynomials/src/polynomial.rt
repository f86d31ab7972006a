// Division of polynomials, each a row of coefficients, the highest first.
ghost use Rattle.std.specs.Prelude.{◌≡◌, ◌≤◌, length};
ghost use Rattle.std.specs.List.{AllByRecursion as Each};
ghost use Rattle.polynomials.specs.Division.{less, division, Left};

use elements::Element;

// Takes f times the row `by` from the row, place by place from the first on.
#[tactic(auto, using(crate::proofs::Rows::less_next))]
fn take_multiple<E: Element>(row: &mut [E], f: E, by: &[E])
    requires { length by.now ≤ length row.old }
    ensures { row.new ≡ less E.ops f by.now row.old }
{
    // Written by index: of a row that is written through `zip` a proof knows nothing afterwards.
    for (j, g) in by.iter().enumerate() {
        row[j] = row[j].add(f.mul(*g).neg());
    }
}

// Divides the row by the divisor: leaves the quotient in its place and then the remainder, and answers where the remainder begins.
// None, with nothing written, if the divisor is empty or its highest coefficient is zero.
#[tactic(auto, using(crate::proofs::Divisions::divided_next, crate::proofs::Divisions::division_is, crate::proofs::Divisions::divided_done))]
pub fn remainder<E: Element>(row: &mut [E], divisor: &[E]) -> Option<usize>
    ensures answer { result ≡ (division E.ops divisor.now row.old).0 }
    ensures row { row.new ≡ (division E.ops divisor.now row.old).1 }
    ensures exact { Each E.ok divisor.now → Each E.ok row.old → Left E.ops divisor.now row.old result row.new }
{
    let [lead, rest @ ..] = divisor else {
        return None;
    };
    if lead.same(E::zero()) {
        return None;
    }
    let unit = lead.inv();
    let n = row.len().saturating_sub(rest.len());
    // By place, since each step reads what the step before wrote behind it.
    for i in 0..n {
        let f = row[i].mul(unit);
        row[i] = f;
        take_multiple(&mut row[i + 1..], f, rest);
    }
    Some(n)
}
