// Hex digits read and written.
#![tactic(auto)]

ghost use Rattle.std.specs.Prelude.{◌≡◌, ◌%◌, ◌<◌, IsTrue};
ghost use Rattle.definitions.specs.Line.{is_hex, digit_of, all_hex, upper_hex};
ghost use Rattle.hexadecimal.specs.Field.{field_of};

// The digit that a byte is, or any where it is none. A letter of either case is above 64, and ends in the bits of 1 to 6: no branch is
// needed to tell it from `0` to `9`.
fn digit_value(c: u8) -> u8
    ensures below { result < 16 }
    ensures value { IsTrue (is_hex c) → result ≡ digit_of c }
{
    (c % 16 + c / 64 * 9) % 16
}

// Whether all bytes are hex digits. All are read before it is told: nothing foretells which bytes are letters, and with a `?` at each
// digit the program took half as long again.
fn are_digits(bytes: &[u8]) -> bool
    ensures { result ≡ all_hex bytes.now }
{
    let mut are_digits = true;
    for c in bytes {
        are_digits &= c.is_ascii_hexdigit();
    }
    are_digits
}

// The number that 16 hex digits stand for. A field that has another byte is refused before any digit is taken for its value.
pub fn read_field(digits: &[u8]) -> Option<u64>
    ensures { result ≡ field_of digits.now }
{
    if digits.len() != 16 || !are_digits(digits) {
        return None;
    }
    let mut n: u64 = 0;
    for c in digits {
        n = n * 16 + u64::from(digit_value(*c));
    }
    Some(n)
}

// The lowest digit of a number, in upper case; `char::from_digit` has the letters in lower case.
pub fn upper_hex(n: u64) -> u8
    ensures { result ≡ upper_hex (n % 16) }
{
    let d = (n % 16) as u8;
    if d < 10 { b'0' + d } else { b'A' + (d - 10) }
}
