// The trials as a program: cases of every public call on standard input, a line for each on standard output. The calls and the line
// are the libraries'; here is only the way from a case's words to a call, and from what it hands back to the words of a line.
#![tactic(auto)]

ghost use Rattle.std.specs.Prelude.{◌<◌, ◌≤◌, length, IfSome};

use std::io::{self, Read, Stdin, Stdout};

mod answers;
mod calls;
mod cases;
mod readings;
mod states;

use answers::Answer;

// The line of a case written: the words of its answer go into the one buffer, and the line into the other. Neither is cut, since the
// buffers have room. An output that fails gives its error.
fn write_answer(
    output: Stdout,
    number: u64,
    case: &[u16],
    out: &mut [u16],
    text: &mut [u8],
) -> io::Result<()> {
    let mut answer = Answer::new(out);
    let refusal = calls::answer(case, &mut answer);
    match dialogue::write_line(number, refusal, answer.words(), text) {
        Some(length) => output.write_all(&text[..length]),
        None => Ok(()),
    }
}

// The next case, its bytes into the one buffer and its words into the other; how many words it is. None where the input has ended, or
// fails.
fn read_case(mut input: Stdin, bytes: &mut [u8], words: &mut [u16]) -> Option<usize>
    requires { 16384 ≤ length bytes.old }
    ensures { IfSome result (λ count. count < 8192) }
{
    let mut first = [0u8; 2];
    input.read_exact(&mut first).ok()?;
    let count = cases::length_of(u16::from_be_bytes(first));
    let case = &mut bytes[..2 * count];
    input.read_exact(case).ok()?;
    cases::take_words(case, words);
    Some(count)
}

// Every case and its line. There is room for the longest case, the longest answer, which is a count, a state and a buffer of 8191
// words, and its line.
fn main(rt: HostRuntime) -> io::Result<()> {
    let mut bytes = [0u8; 16384];
    let mut words = [0u16; 8192];
    let mut out = [0u16; 8242];
    let mut text = [0u8; 42000];
    for number in 1..=u64::MAX {
        let Some(count) = read_case(rt.stdin(), &mut bytes, &mut words) else {
            break;
        };
        write_answer(rt.stdout(), number, &words[..count], &mut out, &mut text)?;
    }
    Ok(())
}
