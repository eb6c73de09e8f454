// The lines that are written: an answer, and `bad line`.
ghost use Rattle.std.specs.Prelude.{◌≡◌, [], ◌∷◌, ◌++◌, ◌≤◌, ◌<◌, ◌^◌};
ghost use Rattle.definitions.specs.Answers.{remainder_meaning};
ghost use Rattle.definitions.specs.Line.{hex_digits, answer_line, bad_line};
ghost use Rattle.lines.specs.Output.{output_of};

use definitions::{Refused, Residue};
use hexadecimal::upper_hex;
use quotients::shown_bits;

// A line of output without its newline: the first `len` bytes, then zeros. It is copied and returned whole, so it is a fixed array.
#[derive(Clone, Copy)]
pub struct Output {
    pub bytes: [u8; 20],
    pub len: usize,
}

pub fn bad_line() -> Output
    ensures { result ≡ output_of bad_line }
{
    Output {
        bytes: *b"bad line\0\0\0\0\0\0\0\0\0\0\0\0",
        len: 8,
    }
}

// A number's 16 digits and two single ones, single spaces between them. A loop, since `{:016X}` made such a line in twice the time.
fn digits_line(value: u64, quotient_digit: u8, number_digit: u8) -> Output
    ensures { result ≡ output_of (hex_digits 16 value ++ (32 ∷ quotient_digit ∷ 32 ∷ number_digit ∷ [])) }
{
    let mut bytes = [b' '; 20];
    for k in 0..16 {
        bytes[k] = upper_hex(value >> (60 - 4 * k));
    }
    bytes[17] = quotient_digit;
    bytes[19] = number_digit;
    Output { bytes, len: 20 }
}

// The line of an answer. Only `answer_line` calls it, with an answer of a binary64 remainder: its number has one digit.
pub fn line_of_answer(answer: Result<Residue<u32>, Refused>) -> Output
    requires { ((remainder_meaning answer).value < 2 ^ 64) × ((remainder_meaning answer).number ≤ 9) }
    ensures { result ≡ output_of (answer_line (remainder_meaning answer)) }
{
    match answer {
        Ok(residue) => digits_line(residue.value.low, b'0' + shown_bits(residue.quotient), b'0'),
        Err(refused) => digits_line(refused.value.low, b'0', b'0' + u8::from(refused.why)),
    }
}
