// A word rounded by a number of binary places, ties to even.
#![tactic(auto)]

ghost use Rattle.std.specs.Prelude.{◌≡◌, ◌+◌, ◌<◌, ◌^◌};
ghost use Rattle.rounding.specs.Round.{round_of, rounded_of};

use definitions::{Rounding, WithRounding};

// A quotient with what was left over, and whether it goes up if anything was.
fn rounded(quotient: u64, remainder: u64, up: bool) -> WithRounding<u64>
    requires { 0 < remainder → quotient + 1 < 2 ^ 64 }
    ensures { result ≡ rounded_of quotient remainder up }
{
    if remainder == 0 {
        return WithRounding {
            value: quotient,
            says: Rounding::Exact,
        };
    }
    if up {
        WithRounding {
            value: quotient + 1,
            says: Rounding::Up,
        }
    } else {
        WithRounding {
            value: quotient,
            says: Rounding::Down,
        }
    }
}

// n / 2^places to the nearest whole number, a half going to the even one. Cuts of no place and of 64 places or more are settled first.
// Then it is one division by a power of two, which gives a quotient and a left-over, and one comparison of the left-over with half of that
// power.
pub fn round_places(n: u64, places: u32) -> WithRounding<u64>
    ensures { result ≡ round_of n places }
{
    if places == 0 {
        return rounded(n, 0, false);
    }
    // all of n is left over: it passes half of 2^64 or not, and is below half of any higher power
    if 64 <= places {
        return rounded(0, n, places == 64 && 1u64 << 63 < n);
    }
    let power = 1u64 << places;
    let half = power >> 1;
    let quotient = n / power;
    let remainder = n % power;
    // an odd quotient goes up at the half already: its left-over counts one more
    rounded(quotient, remainder, half < remainder + quotient % 2)
}
