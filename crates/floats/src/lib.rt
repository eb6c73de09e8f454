// Between binary64 patterns and the language's floats. A float is moved, and asked whether it is a NaN; nothing is computed with it, so
// that no rounding mode and no flushing of a host has a say. A NaN's own bits do not pass a float: it comes back as the house NaN.
#![tactic(auto)]

ghost use Rattle.std.specs.Prelude.{◌≡◌};
ghost use Rattle.std.specs.Float.{binary64};
ghost use Rattle.std.specs.Float.Ieee.{of_bits, to_bits};

// The float of any pattern. That of a NaN is a constant of the compiler, not a division by the host.
pub fn float_of(pattern: u64) -> f64
    ensures { result ≡ of_bits binary64 pattern }
{
    if pattern % 0x8000_0000_0000_0000 <= 0x7FF0_0000_0000_0000 {
        f64::from_bits(pattern)
    } else {
        f64::NAN
    }
}

// The pattern of any float.
pub fn pattern_of(x: f64) -> u64
    ensures { result ≡ to_bits binary64 x }
{
    if x.is_nan() {
        0x7FF8_0000_0000_0000
    } else {
        x.to_bits()
    }
}
