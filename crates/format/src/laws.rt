// The laws of the format that readers rest on.
ghost use Rattle.std.specs.Prelude.{◌≡◌};
ghost use Rattle.format.specs.Fits.{OneFits, FramesReadBack};

// Within how many octets a word at most one lawful frame fits a window. Every lawful frame's own chips read as that frame.
pub fn fitting_reach() -> usize
    ensures value { result ≡ 8 }
    ensures only_one { OneFits result }
    ensures reads_back { FramesReadBack }
{
    8
}
