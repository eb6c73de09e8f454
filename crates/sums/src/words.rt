// Sums and differences of words, and the cut that brings two of them to one place.
ghost use Rattle.std.specs.Prelude.{◌≡◌, ◌+◌, ◌<◌, ◌^◌};
ghost use Rattle.definitions.specs.Difference.{exact_difference};
ghost use Rattle.laws.specs.OddCut.{odd_cut};
ghost use Rattle.sums.specs.Signed.{value_of};

use std::cmp::Ordering;

// A word with a sign.
#[derive(Clone, Copy)]
pub struct SignedWord {
    pub negative: bool,
    pub word: u64,
}

// n / 2^places, made odd where something is left over: its last digit then stands for all that was cut off.
pub fn odd_cut(n: u64, places: u32) -> u64
    ensures { result ≡ odd_cut n places }
{
    if 64 <= places {
        if n == 0 {
            return 0;
        }
        return 1;
    }
    let power = 1u64 << places;
    let quotient = n / power;
    if n % power == 0 {
        return quotient;
    }
    quotient / 2 * 2 + 1
}

// x − y. Of two signs the words add up, and of two equal values it is +0.
pub fn subtract(x: SignedWord, y: SignedWord) -> SignedWord
    requires { x.word + y.word < 2 ^ 64 }
    ensures { value_of result ≡ exact_difference (value_of x) (value_of y) }
{
    if x.negative != y.negative {
        return SignedWord {
            word: x.word + y.word,
            ..x
        };
    }
    match x.word.cmp(&y.word) {
        Ordering::Greater => SignedWord {
            word: x.word - y.word,
            ..x
        },
        Ordering::Less => SignedWord {
            negative: !x.negative,
            word: y.word - x.word,
        },
        Ordering::Equal => SignedWord {
            negative: false,
            word: 0,
        },
    }
}
