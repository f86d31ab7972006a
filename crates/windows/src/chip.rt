// Chips: 1 is lit, 0 is dark, and nothing else is a chip.
ghost use Rattle.std.specs.Prelude.{◌≡◌};
ghost use Rattle.windows.specs.Parts.{first_bad};

// The place of the first chip above 1, if there is one.
pub fn first_bad_chip(chips: &[u8]) -> Option<usize>
    ensures { result ≡ first_bad chips.now }
{
    chips.iter().position(|c| *c > 1)
}
