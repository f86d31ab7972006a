// Octets to build and code with.

// Fills a row with octets that rise by a step.
pub(crate) fn fill(octets: &mut [u8], first: u8, step: u8) {
    let mut next = first;
    for o in octets.iter_mut() {
        *o = next;
        next = next.wrapping_add(step);
    }
}
