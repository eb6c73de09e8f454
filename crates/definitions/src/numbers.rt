// The numbers by which a host knows these words.
ghost use Rattle.std.specs.Prelude.{◌≡◌};
ghost use Rattle.definitions.specs.Answers.{refusal_number};
ghost use Rattle.definitions.specs.Block.{kind_of};
ghost use Rattle.definitions.specs.Exports.{says_number};

use crate::{Kind, Refusal, Rounding};

// 0 is truncated, any other is nearest.
impl From<u32> for Kind {
    ghost from_gives = { λ n k. k ≡ kind_of n };

    fn from(kind: u32) -> Kind {
        if kind == 0 {
            Kind::Truncated
        } else {
            Kind::Nearest
        }
    }
}

impl From<Refusal> for u8 {
    ghost from_gives = { λ w n. n ≡ refusal_number w };

    fn from(why: Refusal) -> u8 {
        match why {
            Refusal::BadLength => 9,
            Refusal::BadSize => 6,
            Refusal::Unsupported => 2,
            Refusal::Nan => 3,
            Refusal::Infinite => 4,
            Refusal::ZeroDivisor => 5,
            Refusal::ZeroSplit => 8,
        }
    }
}

// 0 exact, 1 magnitude rounded up, 2 magnitude rounded down.
impl From<Rounding> for u8 {
    ghost from_gives = { λ r n. n ≡ says_number r };

    fn from(says: Rounding) -> u8 {
        match says {
            Rounding::Exact => 0,
            Rounding::Up => 1,
            Rounding::Down => 2,
        }
    }
}
