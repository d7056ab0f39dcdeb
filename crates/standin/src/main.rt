// The stand-in as a program: records of requests on standard input, a line for each on standard output. What a record, its answer and its
// line are is the library's; here is only the way from one block of bytes to the next (rule 7.10).
#![tactic(auto)]

ghost use Rattle.std.specs.Prelude.{◌≡◌, ◌≤◌, length, IfOk, IfSome, OnErr};

use state::State;
use std::io::{self, Read, Stdin, Stdout};

// Where the talk stands: the sensor's state, and how many records were answered.
#[derive(Clone, Copy)]
struct Talk {
    state: State,
    count: u64,
}

// What became of a block: where the talk stands, how many of its bytes were taken, and how many of the text were filled.
#[derive(Clone, Copy)]
struct Block {
    talk: Talk,
    taken: usize,
    filled: usize,
}

// Every whole record from the front of the bytes on, as far as the text has room for the lines.
fn answer_block(start: Talk, bytes: &[u8], text: &mut [u8]) -> Block
    ensures { (result.taken ≤ length bytes.now) × (result.filled ≤ length text.old) }
{
    let mut talk = start;
    let mut taken = 0;
    let mut filled = 0;
    while let Some(said) = dialogue::answer(
        talk.state,
        talk.count.wrapping_add(1),
        &bytes[taken..],
        &mut text[filled..],
    ) {
        talk = Talk {
            state: said.state,
            count: talk.count.wrapping_add(1),
        };
        taken += said.taken;
        filled += said.length;
    }
    Block {
        talk,
        taken,
        filled,
    }
}

// What more the input has, behind the bytes that there are; how many there are then, or none where it has ended. An input that fails has
// ended.
fn read_more(mut input: Stdin, bytes: &mut [u8], have: usize) -> Option<usize>
    requires { have ≤ length bytes.old }
    ensures { IfSome result (λ now. now ≤ length bytes.old) }
{
    match input.read(&mut bytes[have..]) {
        Ok(0) | Err(_) => None,
        Ok(got) => Some(have + got),
    }
}

// Where the talk stands, and how many bytes are not taken yet. These stand at the front of the one buffer, which goes beside their number: a struct of
// both would be made anew at each turn.
#[derive(Clone, Copy)]
struct Turn {
    talk: Talk,
    have: usize,
}

// The lines of every whole record that there is are written before anything more is read: more is read only where no line came of
// the bytes, which then hold no whole record, since the text has room for every line. Where the input has ended there is no turn. An
// output that fails ends the talk with its error, and leaves the bytes as they were.
fn take_turn(
    input: Stdin,
    output: Stdout,
    talk: Talk,
    bytes: &mut [u8],
    have: usize,
    text: &mut [u8],
) -> io::Result<Option<Turn>>
    requires { have ≤ length bytes.old }
    ensures ok { IfOk result (λ turn. IfSome turn (λ t. t.have ≤ length bytes.old)) }
    ensures err { OnErr result (bytes.new ≡ bytes.old) }
{
    let block = answer_block(talk, &bytes[..have], text);
    // no byte of text is no line; the block is handed on either way
    if block.filled == 0 {
        return Ok(read_more(input, bytes, have).map(|now| Turn { talk, have: now }));
    }
    output.write_all(&text[..block.filled])?;
    bytes.copy_within(block.taken..have, 0);
    Ok(Some(Turn {
        talk: block.talk,
        have: have - block.taken,
    }))
}

fn main(rt: HostRuntime) -> io::Result<()> {
    let input = rt.stdin();
    let output = rt.stdout();
    output.write_all(b"nr no n words\n")?;
    let mut bytes = [0u8; 4096];
    let mut text = [0u8; 4096];
    let mut talk = Talk {
        state: state::fresh(),
        count: 0,
    };
    let mut have = 0;
    for _ in 0..u64::MAX {
        let Some(turn) = take_turn(input, output, talk, &mut bytes, have, &mut text)? else {
            break;
        };
        talk = turn.talk;
        have = turn.have;
    }
    if have == 0 {
        output.write_all(b"end\n")
    } else {
        output.write_all(b"end short\n")
    }
}
