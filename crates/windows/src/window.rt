// A window of chips, lent from where a frame begins, and parts of it with their place.
ghost use Rattle.std.specs.Prelude.{◌≡◌, false, cond, ◌||◌, nat_lt, length, Some, None, Ok, Err, MatchOption, MatchResult};
ghost use Rattle.format.specs.Modes.{mode_of};
ghost use Rattle.format.specs.Reading.{code_at};
ghost use Rattle.windows.specs.Parts.{header_row, HeaderAt, block_row, block_in, BlockAt};

use format::{DoorFault, Mode, payload_place};

// Chips from where a frame begins.
#[derive(Clone, Copy)]
pub struct Window<'a> {
    chips: &'a [u8],
}

// Some of a window's chips, and where the first of them stands in it.
#[derive(Clone, Copy)]
pub struct Part<'a> {
    pub chips: &'a [u8],
    pub place: usize,
}

impl<'a> Window<'a> {
    pub fn new(chips: &'a [u8]) -> Window<'a>
        ensures { result.chips.now ≡ chips.now }
    {
        Window { chips }
    }

    pub fn len(&self) -> usize
        ensures { result ≡ length self.now.chips.now }
    {
        self.chips.len()
    }

    // Code k, from 0, of the first SFD group of n channels, up to the window's end.
    pub fn code(&self, n: u8, k: u8) -> &'a [u8]
        ensures { result.now ≡ code_at n k self.now.chips.now }
    {
        let start = 2048 * n as usize + 128 * k as usize;
        let chips = self.chips.get(start..).unwrap_or(&[]);
        chips.get(..128).unwrap_or(chips)
    }

    // Whether the window reaches to where the payload begins, and has at most 65,536 chips.
    fn check_length(&self, payload: usize) -> Result<(), DoorFault>
        ensures { result ≡ cond (nat_lt (length self.now.chips.now) payload || nat_lt 65536 (length self.now.chips.now)) (Err DoorFault.Window) (Ok tt) }
    {
        if (payload..=65536).contains(&self.chips.len()) {
            Ok(())
        } else {
            Err(DoorFault::Window)
        }
    }

    // The header's 4,096 chips, for n channels.
    pub fn header(&self, n: u8) -> Result<Part<'a>, DoorFault>
        ensures { MatchResult result (λ p. HeaderAt n self.now.chips.now p.chips.now p.place) (λ e. header_row n self.now.chips.now ≡ Some e) }
    {
        if !(1..=4).contains(&n) {
            return Err(DoorFault::Channels);
        }
        let place = 2560 * n as usize;
        self.check_length(place + 4096)?;
        Ok(Part {
            chips: &self.chips[place..place + 4096],
            place,
        })
    }

    // The data chips of a block, from 0, of a mode; none where the block is not wholly in the window, pilots too.
    pub fn block_of(&self, mode: Mode, number: usize) -> Option<Part<'a>>
        ensures { MatchOption result (block_in mode number self.now.chips.now ≡ false) (λ p. BlockAt mode number self.now.chips.now p.chips.now p.place) }
    {
        let spread = mode.spread();
        let place = number
            .checked_mul(512 * spread)?
            .checked_add(payload_place(mode))?;
        let block = self.chips.get(place..)?.get(..512 * spread)?;
        Some(Part {
            chips: &block[..508 * spread],
            place,
        })
    }

    // The data chips of a block, from 0, of the mode with this number; none where the block is not wholly in the window, pilots too.
    pub fn block(&self, mode: u8, number: usize) -> Result<Option<Part<'a>>, DoorFault>
        ensures { MatchResult result (λ o. (block_row (mode_of mode) self.now.chips.now ≡ None) × MatchOption (mode_of mode) ⊥ (λ m. MatchOption o (block_in m number self.now.chips.now ≡ false) (λ p. BlockAt m number self.now.chips.now p.chips.now p.place))) (λ e. block_row (mode_of mode) self.now.chips.now ≡ Some e) }
    {
        let m = Mode::try_from(mode)?;
        self.check_length(payload_place(m))?;
        Ok(self.block_of(m, number))
    }
}
