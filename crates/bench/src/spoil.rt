// Damage for demonstrations.

// Adds an octet at a place, where there is such a place.
pub(crate) fn spoil(octets: &mut [u8], place: usize, by: u8) {
    if let Some(octet) = octets.get_mut(place) {
        *octet ^= by;
    }
}

// Spoils as many octets as are asked for, five places apart from the second on.
pub(crate) fn spoil_some(octets: &mut [u8], count: usize) {
    for octet in octets.iter_mut().skip(1).step_by(5).take(count) {
        *octet ^= 0x5a;
    }
}

// Turns so many chips over, from a place on: 0 to 1 and 1 to 0.
pub(crate) fn turn(chips: &mut [u8], from: usize, count: usize) {
    for chip in chips.iter_mut().skip(from).take(count) {
        *chip ^= 1;
    }
}
