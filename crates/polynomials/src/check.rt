// Checks: what a division by a generator leaves of a message.
ghost use Rattle.std.specs.Prelude.{◌≡◌, ℕ, ◌+◌, ◌<◌, ◌≤◌, List, ◌++◌, length, replicate, if◌then◌else◌, Some, None, slice_index_or};
ghost use Rattle.std.specs.List.{AllByRecursion as Each};
ghost use Rattle.polynomials.specs.Checks.{check, Checks, Generates, laid_out, stepped, room};

use crate::polynomial::remainder;
use crate::proper::all_proper;
use elements::Element;

// A check over a kind of element: the remainder of a division by a generator.
pub trait Check {
    type Element: Element;

    // How many elements the check has.
    const DEGREE: usize;

    ghost DEGREE: { ℕ };

    // The generator's coefficients, the highest first, and that of the preset.
    ghost generator: { List Self.Element };

    ghost preset: { List Self.Element };

    // The coefficient at a place; zero past the end.
    fn generator(place: usize) -> Self::Element
        ensures { result ≡ slice_index_or generator place Self.Element.Element.ops.zero };

    fn preset(place: usize) -> Self::Element
        ensures { result ≡ slice_index_or preset place Self.Element.Element.ops.zero };

    ghost generates: { Generates Self.Element.Element.ok Self.Element.Element.ops DEGREE generator preset };
}

// Fills the row with what is answered for each place.
fn load<E: Element, F: Fn(usize) -> E>(row: &mut [E], at: F)
    requires { F.IsAlwaysCallable at }
    ensures { (k : ℕ) → k < length row.old → F.post at k (slice_index_or row.new k E.ops.zero) }
{
    for (i, x) in row.iter_mut().enumerate() {
        *x = at(i);
    }
}

// Lays the register and the next element out as a dividend of one step: the element is added to the first place, and a zero stands last.
fn lay_out<E: Element>(row: &mut [E], register: &[E], x: E)
    requires { (0 < length register.now) × (length row.old ≡ length register.now + 1) }
    ensures { row.new ≡ laid_out E.ops register.now x }
{
    let last = register.len();
    row[..last].copy_from_slice(register);
    row[0] = row[0].add(x);
    row[last] = E::zero();
}

// Takes one element more of a message into the register, by a division of one step.
fn absorb<E: Element>(register: &mut [E], x: E, generator: &[E], row: &mut [E])
    requires { (0 < length register.old) × (length row.old ≡ length register.old + 1) × (length generator.now ≡ length register.old + 1) }
    ensures { register.new ≡ stepped E.ops generator.now register.old x }
{
    lay_out(row, register, x);
    let _ = remainder(row, generator);
    register.copy_from_slice(&row[1..]);
}

// Leaves the check of the message in the register.
fn take_in<C: Check>(
    message: &[C::Element],
    register: &mut [C::Element],
    row: &mut [C::Element],
    divisor: &[C::Element],
)
    requires { (register.old ≡ C.preset) × (length row.old ≡ C.DEGREE + 1) × (divisor.now ≡ C.generator) }
    ensures { register.new ≡ check C.Element.Element.ops C.generator C.preset message.now }
{
    all_proper(message);
    for x in message {
        absorb(register, *x, divisor, row);
    }
}

// Writes the check of the message and answers how many elements it has. The two rows are lent as room to work in, one place longer than the check;
// the first comes back as zeros, and the second as the generator. None, with nothing written, if a buffer has another length.
pub fn checksum<C: Check>(
    message: &[C::Element],
    out: &mut [C::Element],
    row: &mut [C::Element],
    divisor: &mut [C::Element],
) -> Option<usize>
    ensures answer { result ≡ (if room C.DEGREE out.old row.old divisor.old then Some C.DEGREE else None) }
    ensures out { out.new ≡ (if room C.DEGREE out.old row.old divisor.old then check C.Element.Element.ops C.generator C.preset message.now else out.old) }
    ensures row { row.new ≡ (if room C.DEGREE out.old row.old divisor.old then replicate (C.DEGREE + 1) C.Element.Element.ops.zero else row.old) }
    ensures divisor { divisor.new ≡ (if room C.DEGREE out.old row.old divisor.old then C.generator else divisor.old) }
    ensures remains { result ≡ Some C.DEGREE → Checks C.Element.Element.ops C.generator C.preset message.now out.new }
{
    if out.len() != C::DEGREE || row.len() != C::DEGREE + 1 || divisor.len() != C::DEGREE + 1 {
        return None;
    }
    all_proper(message);
    load(out, |i| C::preset(i));
    load(divisor, |i| C::generator(i));
    take_in::<C>(message, out, row, divisor);
    row.fill_with(|| C::Element::zero());
    Some(C::DEGREE)
}
