// The tally: what was delivered in each mode, and what each refusal turned down.
ghost use Rattle.std.specs.Prelude.{◌≡◌, ◌-◌, cond, None, nat_le, slice_get};
ghost use Rattle.faults.specs.Faults.{fault_refusal};
ghost use Rattle.station.specs.Tallies.{delivered, refused, mode_count, refusal_count};

use faults::Fault;
use format::Mode;

// What was delivered in one mode: how many windows, and how many octets were mended in them.
#[derive(Clone, Copy, Default, PartialEq, Eq, Debug)]
pub struct Row {
    pub windows: u32,
    pub octets: u32,
}

// One row for each mode, and a count for each refusal 1 to 19. A count that would pass its type's end stops there.
#[derive(Clone, Copy, Default)]
pub struct Tally {
    rows: [Row; 7],
    refusals: [u32; 19],
}

// The entry of a number; the first is number 1.
fn numbered<T: Copy>(entries: &[T], number: u8) -> Option<T>
    ensures { result ≡ cond (nat_le 1 number) (slice_get entries.now (number - 1)) None }
{
    let place = number.checked_sub(1)?;
    entries.get(place as usize).copied()
}

impl Tally {
    // One window more was delivered in a mode, with some octets mended.
    pub(crate) fn deliver(&mut self, mode: Mode, octets: usize)
        ensures { self.new ≡ delivered self.old mode octets }
    {
        let row = &mut self.rows[mode.number() as usize - 1];
        row.windows = row.windows.saturating_add(1);
        let more = u32::try_from(octets).unwrap_or(u32::MAX);
        row.octets = row.octets.saturating_add(more);
    }

    // One build or read more was turned down.
    pub(crate) fn refuse(&mut self, fault: Fault)
        ensures { self.new ≡ refused self.old (fault_refusal fault).number }
    {
        let number = fault.refusal().number;
        let count = &mut self.refusals[number as usize - 1];
        *count = count.saturating_add(1);
    }

    // How many windows were delivered in a mode, and how many octets were mended in them; none for another number than 1 to 7.
    pub(crate) fn mode(&self, number: u8) -> Option<Row>
        ensures { result ≡ mode_count self.now number }
    {
        numbered(&self.rows, number)
    }

    // How many builds and reads a refusal turned down; none for another number than 1 to 19.
    pub(crate) fn refusal(&self, number: u8) -> Option<u32>
        ensures { result ≡ refusal_count self.now number }
    {
        numbered(&self.refusals, number)
    }
}
