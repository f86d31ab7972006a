// The code that words are written in: what is proved of it.
#![tactic(auto)]

ghost use Rattle.std.specs.Prelude.{◌≡◌};
ghost use Rattle.coding.specs.Codewords.{ApartBy, OneWithin};

// In how many places two different codewords of one length differ at least.
pub fn least_distance() -> usize
    ensures value { result ≡ 17 }
    ensures apart { ApartBy result }
{
    17
}

// Within how many places of a word no two codewords lie.
pub fn mendable() -> usize
    ensures value { result ≡ 8 }
    ensures only_one { OneWithin result }
{
    8
}
