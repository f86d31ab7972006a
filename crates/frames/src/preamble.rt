// The preamble: SYNC and the SFD groups.
ghost use Rattle.std.specs.Prelude.{◌≡◌, ◌*◌, ◌/◌, ◌%◌, ◌<◌, length};
ghost use Rattle.format.specs.Frame.{signed, all_signed, copies, preamble};
ghost use Rattle.format.specs.Modes.{Row, row};

use format::{Code, Mode, chips_of};

// The code a with its sign.
fn signed(minus: bool) -> &'static [u8; 128]
    ensures { result.now ≡ signed minus }
{
    chips_of(if minus { Code::MinusA } else { Code::A })
}

// Writes a code for each sign.
fn write_codes(chips: &mut [u8], signs: &[bool])
    requires { length chips.old ≡ 128 * length signs.now }
    ensures { chips.new ≡ all_signed signs.now }
{
    // By ranges, here and below: of a row that is written through its chunks a proof knows nothing afterwards.
    for (k, minus) in signs.iter().enumerate() {
        chips[128 * k..128 * (k + 1)].copy_from_slice(signed(*minus));
    }
}

// Writes copies of a piece.
fn write_copies<const N: usize>(chips: &mut [u8], piece: &[u8; N])
    requires { (0 < N) × (length chips.old % N ≡ 0) }
    ensures { chips.new ≡ copies (length chips.old / N) piece.now }
{
    for i in 0..chips.len() / N {
        chips[N * i..N * (i + 1)].copy_from_slice(piece);
    }
}

// Writes the preamble: SYNC, 16 codes a channel, and a group for each channel.
pub(crate) fn write_preamble(chips: &mut [u8], mode: Mode)
    requires { length chips.old ≡ 2560 * (row mode).channels }
    ensures { chips.new ≡ preamble mode }
{
    let [second, third, fourth] = mode.minus();
    let mut group = [0u8; 512];
    write_codes(&mut group, &[true, second, third, fourth]);
    let (sync, groups) = chips.split_at_mut(2048 * mode.channels());
    write_copies(sync, signed(false));
    write_copies(groups, &group);
}
