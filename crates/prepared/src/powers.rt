// Powers of two modulo a divisor, 58 places apart, in a table that is filled as far as they are wanted. The widest gap is 2045, and
// (2045 - 4) / 58 is 35: there are 36 of them.
ghost use Rattle.std.specs.Prelude.{◌≡◌, ◌<◌, ◌≤◌};
ghost use Rattle.prepared.specs.Prepared.{Powers, slot_of};

use crate::modulus::Prepared;

// The power that a number of places starts from. From the second one on 4 to 61 places are left: three of them tell what is shown of a
// quotient, and with 61 no word overflows.
pub fn slot(places: u32) -> usize
    ensures { result ≡ slot_of places }
{
    if places < 62 {
        0
    } else {
        ((places - 4) / 58) as usize
    }
}

// The table with the powers up to the wanted one, and how many it then holds.
pub fn extend(table: &mut [u64; 36], known: usize, wanted: usize, m: Prepared) -> usize
    requires { Powers m.significand known table.old × (wanted < 36) }
    ensures { Powers m.significand result table.new × (known ≤ result) × (wanted < result) }
{
    for n in known..wanted + 1 {
        table[n] = m.next_power(table[n - 1]);
    }
    known.max(wanted + 1)
}
