// A whole input answered piece by piece: a read may cut a line anywhere. Only the program over this crate calls these functions, with
// buffers of its own that are long enough; what a buffer holds past the part that is stated is free.
#![tactic(auto)]

ghost use Rattle.std.specs.Prelude.{◌≡◌, ◌+◌, ◌-◌, ◌*◌, ◌≤◌, min, length, take, drop};
ghost use Rattle.definitions.specs.Line.{last_written};
ghost use Rattle.stream.specs.Stream.{kept_bytes, BeginsWith, Put, Passed, Turned};

use lines::answer_line;

// A line of input answered at a place of `out`, with a newline, and the place after that.
fn answer_at(out: &mut [u8], at: usize, line: &[u8]) -> usize
    requires { at + 21 ≤ length out.old }
    ensures { Put line.now out.old out.new at result }
{
    let answer = answer_line(line);
    let end = at + answer.len;
    out[at..at + 20].copy_from_slice(&answer.bytes);
    out[end] = b'\n';
    end + 1
}

// Where the last line of an input begins, and how many bytes were put into `out`.
#[derive(Clone, Copy)]
pub struct Pass {
    pub begin: usize,
    pub written: usize,
}

// Every line that ends in an input, answered at the start of `out`.
fn answer_ended(input: &[u8], out: &mut [u8]) -> Pass
    requires { 9 * length input.now + 12 ≤ length out.old }
    ensures { Passed input.now out.new result }
{
    let mut begin = 0;
    let mut at = 0;
    for (i, c) in input.iter().enumerate() {
        if *c == b'\n' {
            at = answer_at(out, at, &input[begin..i]);
            begin = i + 1;
        }
    }
    Pass { begin, written: at }
}

// The bytes from `begin` to `end` moved to the front, as many as are kept.
fn keep(buffer: &mut [u8], begin: usize, end: usize) -> usize
    requires { (begin ≤ end) × (end ≤ length buffer.old) }
    ensures { (result ≡ min kept_bytes (end - begin)) × (take result buffer.new ≡ take result (drop begin buffer.old)) }
{
    let kept = (end - begin).min(34);
    buffer.copy_within(begin..begin + kept, 0);
    kept
}

// How many bytes are to be written, and how many of a line that has begun are kept.
#[derive(Clone, Copy)]
pub struct Turn {
    pub written: usize,
    pub kept: usize,
}

// The first `filled` bytes of a buffer answered. What is kept goes to its front, for more input to come after it. A caller lends any
// slices that are long enough.
pub fn answer_lines(buffer: &mut [u8], filled: usize, out: &mut [u8]) -> Turn
    requires { (filled ≤ length buffer.old) × (9 * filled + 12 ≤ length out.old) }
    ensures { Turned (take filled buffer.old) buffer.new out.new result }
{
    let pass = answer_ended(&buffer[..filled], out);
    let kept = keep(buffer, pass.begin, filled);
    Turn {
        written: pass.written,
        kept,
    }
}

// The last line, which needs no newline, answered.
pub fn answer_last(line: &[u8], out: &mut [u8]) -> usize
    requires { 21 ≤ length out.old }
    ensures { BeginsWith out.new (last_written line.now) result }
{
    if line.is_empty() {
        return 0;
    }
    answer_at(out, 0, line)
}
