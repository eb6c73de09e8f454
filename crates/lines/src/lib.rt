// One line of input answered by one line of output.
#![tactic(auto)]

mod output;

ghost use Rattle.std.specs.Prelude.{◌≡◌};
ghost use Rattle.definitions.specs.Line.{line_for};
ghost use Rattle.lines.specs.Fields.{fields_of};
ghost use Rattle.lines.specs.Output.{output_of};

use definitions::Kind;
use formats::Binary64;
use hexadecimal::read_field;
pub use output::Output;
use output::{bad_line, line_of_answer};
use remainder::patterns::Remainder;

// The two numbers that a well-formed line holds.
fn read_fields(line: &[u8]) -> Option<(u64, u64)>
    ensures { result ≡ fields_of line.now }
{
    if line.len() != 33 || line[16] != b' ' {
        return None;
    }
    Some((read_field(&line[..16])?, read_field(&line[17..])?))
}

// A line of input, without its newline, answered.
pub fn answer_line(line: &[u8]) -> Output
    ensures { result ≡ output_of (line_for line.now) }
{
    let Some((x, y)) = read_fields(line) else {
        return bad_line();
    };
    let told = Binary64(x).remainder(Binary64(y), Kind::Truncated);
    line_of_answer(told.answer)
}
