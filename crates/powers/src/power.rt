// The power of two that a value is scaled by, as a natural number.
ghost use Rattle.std.specs.Prelude.{◌≡◌};
ghost use Rattle.powers.specs.Power.{offset_of};

// More places than any format has between its smallest place and its largest.
pub const FAR: i32 = 65536;

// A power with FAR added. One that is further from 0 than FAR counts as FAR: both take every value out of the format.
pub fn offset(power: i32) -> u32
    ensures { result ≡ offset_of power }
{
    (power.clamp(-FAR, FAR) + FAR) as u32
}
