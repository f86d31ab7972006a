// The equations of the syndromes, solved by elimination over rows that start as the unit vectors.
// Each row has nine coordinates, of which REACH + 1 are in use.
ghost use Rattle.std.specs.Prelude.{◌≡◌, ◌+◌, take, not, ◌==◌, position};
ghost use Rattle.elements.specs.Octets.{octets};
ghost use Rattle.coding.specs.Kernel.{dot as dot_of, add_mul, clear_rows, eliminate_rows, kernel_rows, unit_rows};
ghost use Rattle.coding.specs.Decoder.{windows};
ghost use Rattle.menders.specs.Locators.{entries, Locates};

use crate::decoder::Decoder;
use arrayvec::ArrayVec;
use elements::Element;

type Rows = ArrayVec<[u8; 9], 9>;

const UNITS: [[u8; 9]; 9] = [
    [1, 0, 0, 0, 0, 0, 0, 0, 0],
    [0, 1, 0, 0, 0, 0, 0, 0, 0],
    [0, 0, 1, 0, 0, 0, 0, 0, 0],
    [0, 0, 0, 1, 0, 0, 0, 0, 0],
    [0, 0, 0, 0, 1, 0, 0, 0, 0],
    [0, 0, 0, 0, 0, 1, 0, 0, 0],
    [0, 0, 0, 0, 0, 0, 1, 0, 0],
    [0, 0, 0, 0, 0, 0, 0, 1, 0],
    [0, 0, 0, 0, 0, 0, 0, 0, 1],
];

// What the equation comes to at the vector.
pub(crate) fn dot(equation: &[u8], v: &[u8]) -> u8
    ensures { result ≡ dot_of octets equation.now v.now }
{
    let mut sum = 0u8;
    for (r, a) in equation.iter().zip(v) {
        sum = sum.add(a.mul(*r));
    }
    sum
}

// Adds c times the other to the row.
fn add_multiple(row: &mut [u8; 9], c: u8, by: &[u8; 9])
    ensures { row.new ≡ add_mul octets c row.old by.now }
{
    for (i, a) in row.iter_mut().enumerate() {
        *a = a.add(c.mul(by[i]));
    }
}

// Takes out of each row so much of the pivot that it solves the equation.
fn clear(rows: &mut [[u8; 9]], pivot: &[u8; 9], equation: &[u8])
    ensures { rows.new ≡ clear_rows octets equation.now pivot.now rows.old }
{
    let unit = dot(equation, pivot).inv();
    for row in rows.iter_mut() {
        let c = dot(equation, row).mul(unit);
        add_multiple(row, c, pivot);
    }
}

// The first row that does not solve the equation.
fn first_unsolved(rows: &[[u8; 9]], equation: &[u8]) -> Option<usize>
    ensures { result ≡ position (λ v. not (dot_of octets equation.now v == 0)) rows.now }
{
    rows.iter().position(|row| dot(equation, row) != 0)
}

// Makes the rows solve one equation more: the first that does not is taken out, and cleared from those behind it.
fn eliminate(rows: &mut Rows, equation: &[u8])
    ensures { rows.new.items ≡ eliminate_rows octets equation.now rows.old.items }
{
    let Some(p) = first_unsolved(rows, equation) else {
        return;
    };
    let pivot = rows.remove(p);
    clear(&mut rows[p..], &pivot, equation);
}

impl<const REACH: usize> Decoder<REACH> {
    // The unit vectors, made to solve the REACH equations of the syndromes; REACH + 1 coordinates of each are in use.
    fn solutions(&self, syndromes: &[u8; 16]) -> Rows
        ensures { result.items ≡ kernel_rows octets (windows (entries syndromes.now) (REACH + 1) 0 REACH) (unit_rows octets 9 0 (REACH + 1)) }
    {
        let mut rows = ArrayVec::from(UNITS);
        rows.truncate(REACH + 1);
        for equation in syndromes[..2 * REACH].windows(REACH + 1) {
            eliminate(&mut rows, equation);
        }
        rows
    }

    // A vector that locates the wrong places, if no more than REACH are wrong: its first REACH + 1 coordinates.
    pub(crate) fn locator(&self, syndromes: &[u8; 16]) -> [u8; 9]
        ensures { Locates (entries syndromes.now) REACH (take (REACH + 1) result) }
    {
        self.solutions(syndromes)[0]
    }
}
