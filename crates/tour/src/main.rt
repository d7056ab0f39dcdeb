// A tour of the sensor: a whole input at once, its records answered one by one, each line written as it comes. The stored input
// goes through every service in every mode and every refusal that a program can meet, and ends in a cut record.
#![tactic(auto)]

ghost use Rattle.std.specs.Prelude.{◌≤◌, length, IfOk};

use std::io::{self, Read, Stdin, Stdout};

// What the input has, from the front of the bytes on, until they are full or it ends; how many there are then. An input that fails
// has ended.
fn read_full(mut input: Stdin, bytes: &mut [u8]) -> usize
    ensures { result ≤ length bytes.old }
{
    // Stays a loop: one read may give fewer bytes than there is room for.
    let mut have = 0;
    while have < bytes.len() {
        match input.read(&mut bytes[have..]) {
            Ok(0) | Err(_) => return have,
            Ok(got) => have += got,
        }
    }
    have
}

// The records one after another; how many bytes they are. An output that fails ends it, with its error.
fn answer_all(output: Stdout, bytes: &[u8]) -> io::Result<usize>
    ensures { IfOk result (λ n. n ≤ length bytes.now) }
{
    let mut state = state::fresh();
    let mut number: u64 = 1;
    let mut at = 0;
    let mut text = [0u8; 64];
    while let Some(said) = dialogue::answer(state, number, &bytes[at..], &mut text) {
        output.write_all(&text[..said.length])?;
        state = said.state;
        number = number.wrapping_add(1);
        at += said.taken;
    }
    Ok(at)
}

fn main(rt: HostRuntime) -> io::Result<()> {
    let output = rt.stdout();
    output.write_all(b"nr no n words\n")?;
    let mut bytes = [0u8; 65536];
    let n = read_full(rt.stdin(), &mut bytes);
    if answer_all(output, &bytes[..n])? == n {
        output.write_all(b"end\n")
    } else {
        output.write_all(b"end short\n")
    }
}
