// The chips of built frames, held to those of a second implementation.
use crate::count::Count;
use crate::framing::LENGTHS;
use crate::octets::fill;
use mending::{Mender, Still};
use station::Station;
use std::alloc::{AllocError, Global};

// The digests of the second implementation's chips: mode after mode, and in each mode length after length.
const EXPECTED: [u32; 56] = [
    1375207718, 3406492907, 3166599952, 654340584, 3862309549, 2084631813, 1796194446, 679379340,
    126572812, 3620978446, 1595086312, 1716059794, 2942092312, 1624690936, 1833432140, 2271375232,
    4260357414, 634280136, 2101196871, 2854295124, 4102891295, 350195014, 585831637, 385151264,
    101606668, 2190222190, 248970280, 3094727762, 3083630552, 4243989304, 1950949868, 1201284864,
    3858904358, 3191252973, 2090026387, 3287259655, 32208019, 3380304306, 2538198958, 562934512,
    3544598796, 2795503566, 2181917352, 2675810034, 3800054936, 3350290808, 4180697516, 2054845664,
    4012561702, 2416279698, 3470916379, 3933138361, 1576442214, 442831129, 360673254, 3460983187,
];

fn digest(chips: &[u8]) -> u32 {
    chips.iter().fold(0u32, |h, c| {
        h.wrapping_mul(31)
            .wrapping_add(u32::from(*c))
            .wrapping_add(1)
    })
}

// Builds frame k, from 0, and answers its chips' digest; none where the build is turned down.
fn built_digest<M: Mender>(
    heap: Global,
    station: &mut Station<M>,
    k: usize,
    length: usize,
) -> Result<Option<u32>, AllocError> {
    let mut mac = [0u8; 10];
    fill(&mut mac, (16 + k % 16) as u8, 1);
    let mut body = vec![in heap; 0u8; length]?;
    fill(body.as_mut_slice(), (3 + k % 64) as u8, 7);
    let mut chips = vec![in heap; 0u8; 50176]?;
    let mode = (k / 8 % 7 + 1) as u8;
    let Ok(built) = station.build(
        mode,
        k % 2 == 1,
        &mac,
        body.as_mut_slice(),
        chips.as_mut_slice(),
    ) else {
        return Ok(None);
    };
    chips.truncate(built.chips);
    Ok(Some(digest(chips.as_slice())))
}

pub(crate) fn chips(heap: Global) -> Result<Count, AllocError> {
    let mut count = Count::default();
    let mut station = Station::open(Still {});
    // By number, which gives a frame's mode, MAC header and body too.
    for (k, expected) in EXPECTED.iter().enumerate() {
        let found = built_digest(heap, &mut station, k, LENGTHS[k % 8])?;
        count.note(found == Some(*expected));
    }
    Ok(count)
}
