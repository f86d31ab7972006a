// Rows of proper values.
ghost use Rattle.std.specs.List.{AllByRecursion as Each};

use elements::Element;

// Does nothing: each value of the row is proper.
pub(crate) fn all_proper<E: Element>(row: &[E])
    ensures { Each E.ok row.now }
{
    for x in row {
        x.proper();
    }
}
