// Known pieces of the format.
ghost use Rattle.std.specs.Prelude.{◌≡◌};
ghost use Rattle.format.specs.Known.{KnownPieces};

// How many known pieces are proved of the definitions that the promises use.
pub fn known_pieces() -> usize
    ensures count { result ≡ 16 }
    ensures pieces { KnownPieces }
{
    16
}
