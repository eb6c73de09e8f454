// The product of two words, twice as long as a word: its upper half and its lower one. Each is compiled to one multiplication; both of one
// product share it.
#![tactic(auto)]

ghost use Rattle.std.specs.Prelude.{◌≡◌, ◌*◌, ◌/◌, ◌%◌, ◌^◌};

// The upper word.
pub fn high(a: u64, b: u64) -> u64
    ensures { result ≡ a * b / 2 ^ 64 }
{
    (((a as u128) * (b as u128)) >> 64) as u64
}

pub fn low(a: u64, b: u64) -> u64
    ensures { result ≡ a * b % 2 ^ 64 }
{
    a.wrapping_mul(b)
}
