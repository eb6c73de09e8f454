// Answers each line of standard input by a line of standard output. What is written for a buffer of
// input, and what is kept of it, is proved in `stream`; what this file does is read, hand on and write. Tests cover that: its stored
// input, and rust/compare/tests/lines.rs.
#![tactic(auto)]

ghost use Rattle.std.specs.Prelude.{◌≡◌, ◌≤◌, length, take, IfOk};

use arrayvec::ArrayString;
use std::fmt::Write as _;
use std::io::{Read, Write};
use std::{fmt, io};
use stream::{answer_last, answer_lines};

// Room for a buffer of input: a line that has begun, and what one read brings.
fn input_room() -> [u8; 65536]
    ensures { 65536 ≡ length result }
{
    [0; 65536]
}

// Room for the answers of a whole buffer of input: an empty line takes one byte there, and its answer nine.
fn room() -> [u8; 589836]
    ensures { 589836 ≡ length result }
{
    [0; 589836]
}

// A call that has failed, and why.
#[derive(Debug, Drop)]
enum Failure {
    Reading(io::Error),
    Writing(io::Error),
}

// What has failed, and the system's words, without the number that is shown after them.
impl fmt::Display for Failure {
    fn fmt<W: fmt::Write>(&self, f: &mut fmt::Formatter<W>) -> fmt::Result {
        let (what, error) = match self {
            Failure::Reading(error) => ("standard input", error),
            Failure::Writing(error) => ("standard output", error),
        };
        let mut text = ArrayString::<256>::new();
        write!(text, "{error}")?;
        let end = text.find(" (os error ").unwrap_or(text.len());
        write!(f, "{what}: {}", &text[..end])
    }
}

fn write_answers(rt: &HostRuntime, answers: &[u8]) -> Result<(), Failure> {
    rt.stdout().write_all(answers).map_err(Failure::Writing)
}

// Reads to the end, writes the answers of all lines that end, and says how many bytes are kept of a last line that has no newline. A
// proved loop has to end, and nothing says that an input does: it takes turns up to a number that no run uses up.
fn answer_input(rt: &HostRuntime, buffer: &mut [u8], out: &mut [u8]) -> Result<usize, Failure>
    requires { (length buffer.old ≡ 65536) × (length out.old ≡ 589836) }
    ensures inside { IfOk result (λ kept. (kept ≤ length buffer.new) × (kept ≡ length (take kept buffer.new))) }
    ensures short { IfOk result (λ kept. kept ≤ 34) }
{
    let mut kept = 0;
    for _ in 0..u64::MAX {
        let got = rt
            .stdin()
            .read(&mut buffer[kept..])
            .map_err(Failure::Reading)?;
        if got == 0 {
            break;
        }
        let turn = answer_lines(buffer, kept + got, out);
        write_answers(rt, &out[..turn.written])?;
        kept = turn.kept;
    }
    Ok(kept)
}

// Answers all that is read, and at the end a last line that has no newline.
fn answer_all(rt: &HostRuntime) -> Result<(), Failure> {
    let mut buffer = input_room();
    let mut out = room();
    let kept = answer_input(rt, &mut buffer, &mut out)?;
    let written = answer_last(&buffer[..kept], &mut out);
    write_answers(rt, &out[..written])
}

fn main(rt: HostRuntime) {
    if let Err(failure) = answer_all(&rt) {
        let _ = eprintln!(rt; "{failure}");
    }
}
