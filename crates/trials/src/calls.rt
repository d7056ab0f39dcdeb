// The call of each kind of case. The places of its words are counted from the case's own first word, its kind.
use crate::answers::Answer;
use crate::cases::{list_of, rest};
use crate::readings::{put_mixed_reading, put_reading};
use crate::states::{STATE_WORDS, put_plan, put_state, state_of};
use flat::plan_of;
use profile::Scan;
use reader::ReadRefusal;
use state::{Refusal, Reply, State};
use units::{Angle, Time};
use words::word_at;

// Where the words behind a state begin, of a case that has one behind its kind.
const BEHIND_STATE: usize = STATE_WORDS + 1;

// Each call answers with its number for no, 0 for none, which a line prints: the calls have errors of four types.

// What an answer at a state and the buffer after it say: the count, the next state, and the whole buffer. A refusal counts no word and
// leaves the state.
fn say_answer(
    state: State,
    answer: Result<Reply, Refusal>,
    buffer: &[u16],
    out: &mut Answer,
) -> u16 {
    let (next, refusal, count) = match answer {
        Ok(reply) => (reply.state, 0, reply.count),
        Err(refusal) => (state, refusal.number(), 0),
    };
    out.put_number(count);
    put_state(out, next);
    out.put_all(buffer);
    refusal
}

// Kind 1, a request: its words are all that are left of the case.
fn request(case: &[u16], out: &mut Answer) -> u16 {
    let mut space = [0u16; 8192];
    let state = state_of(rest(case, 1));
    let given = rest(case, BEHIND_STATE);
    let buffer = list_of(given, &mut space);
    let answer = sensor::request(state, rest(given, 3), buffer);
    say_answer(state, answer, buffer, out)
}

// Kind 2, a revolution.
fn revolution(case: &[u16], out: &mut Answer) -> u16 {
    let mut distance_space = [0u16; 8192];
    let mut echo_space = [0u16; 8192];
    let mut reflector_space = [0u16; 8192];
    let mut space = [0u16; 8192];
    let state = state_of(rest(case, 1));
    let given = rest(case, BEHIND_STATE);
    let scan = Scan {
        start: Time(word_at(given, 0)),
        distances: list_of(rest(given, 1), &mut distance_space),
        echoes: list_of(rest(given, 4), &mut echo_space),
        reflectors: list_of(rest(given, 7), &mut reflector_space),
    };
    let buffer = list_of(rest(given, 10), &mut space);
    let answer = profile::revolution(state, scan, buffer);
    say_answer(state, answer, buffer, out)
}

// Kind 3, the normal plan; sixteen zeros where there is none.
fn normal_plan(case: &[u16], out: &mut Answer) -> u16 {
    let step = Angle(word_at(case, 1));
    match normal::normal_plan(plan_of(rest(case, 2)), step) {
        Ok(plan) => {
            put_plan(out, plan);
            0
        }
        Err(refusal) => {
            out.put_all(&[0; 16]);
            refusal.number()
        }
    }
}

// Kind 4, a reading of all the words that are left.
fn read(case: &[u16], out: &mut Answer) -> u16 {
    put_reading(out, reader::read(rest(case, 1)))
}

// A part of the words that a call hands back, and the number for no of the call that says why there is none.
fn say_part<T: Copy, P: Copy>(
    answer: Result<T, ReadRefusal<P>>,
    part: &[u16],
    out: &mut Answer,
) -> u16 {
    out.put_all(part);
    match answer {
        Ok(_) => 0,
        Err(refusal) => refusal.number(),
    }
}

// The call of a place in all the words that are left, and the call beside it that says why it hands nothing back.
fn say_place<P: Copy, W, H>(case: &[u16], why: W, part: H, out: &mut Answer) -> u16
where
    W: Fn(&[u16], usize) -> Result<(), ReadRefusal<P>>,
    H: Fn(&[u16], usize) -> &[u16],
    requires why_callable { W.IsAlwaysCallable why }
    requires part_callable { H.IsAlwaysCallable part }
{
    let place = usize::from(word_at(case, 1));
    let words = rest(case, 2);
    say_part(why(words, place), part(words, place), out)
}

// Kind 5, a sector's points in all the words that are left, with the number for no of the call beside it.
fn stretch(case: &[u16], out: &mut Answer) -> u16 {
    say_place(
        case,
        |words, place| reader::stretch_refusal(words, place),
        |words, place| reader::stretch(words, place),
        out,
    )
}

// Kind 6, the fresh state, and every kind that there is not.
fn fresh(out: &mut Answer) -> u16 {
    put_state(out, state::fresh());
    0
}

// A count and the buffer after it; nothing says why there is none.
fn say_count(count: usize, buffer: &[u16], out: &mut Answer) -> u16 {
    out.put_number(count);
    out.put_all(buffer);
    0
}

// Kind 7, a profile by plain numbers: that call hands back its count alone.
fn flat_profile(case: &[u16], out: &mut Answer) -> u16 {
    let mut distance_space = [0u16; 8192];
    let mut echo_space = [0u16; 8192];
    let mut space = [0u16; 8192];
    let step = Angle(word_at(case, 17));
    let running = word_at(case, 18);
    let mask = word_at(case, 19);
    let start = Time(word_at(case, 20));
    let distances = list_of(rest(case, 21), &mut distance_space);
    let echoes = list_of(rest(case, 24), &mut echo_space);
    let buffer = list_of(rest(case, 27), &mut space);
    let count = flat::slackjib_profile(
        rest(case, 1),
        step,
        running,
        mask,
        start,
        distances,
        echoes,
        buffer,
    );
    say_count(count, buffer, out)
}

// Kind 8, a reading of all the words that are left as a mixed profile.
fn read_mixed(case: &[u16], out: &mut Answer) -> u16 {
    put_mixed_reading(out, reader::read_mixed(rest(case, 1)))
}

// Kind 9, a sector's points in a mixed profile.
fn stretch_mixed(case: &[u16], out: &mut Answer) -> u16 {
    say_place(
        case,
        |words, place| reader::stretch_mixed_refusal(words, place),
        |words, place| reader::stretch_mixed(words, place),
        out,
    )
}

// Kind 10, a reflector's words in a mixed profile.
fn reflector(case: &[u16], out: &mut Answer) -> u16 {
    say_place(
        case,
        |words, place| reader::reflector_refusal(words, place),
        |words, place| reader::reflector(words, place),
        out,
    )
}

// Kind 11, the words of all reflectors of a mixed profile, with the reading's number for no.
fn all_reflectors(case: &[u16], out: &mut Answer) -> u16 {
    let words = rest(case, 1);
    say_part(
        reader::read_mixed(words),
        reader::all_reflectors(words),
        out,
    )
}

// Kind 12, a mixed profile by plain numbers: that call hands back its count alone. Stays beside kind 7, whose call has other numbers and
// no reflectors.
fn flat_mixed_profile(case: &[u16], out: &mut Answer) -> u16 {
    let mut distance_space = [0u16; 8192];
    let mut echo_space = [0u16; 8192];
    let mut reflector_space = [0u16; 8192];
    let mut space = [0u16; 8192];
    let step = Angle(word_at(case, 17));
    let running = word_at(case, 18);
    let high = word_at(case, 19);
    let low = word_at(case, 20);
    let start = Time(word_at(case, 21));
    let distances = list_of(rest(case, 22), &mut distance_space);
    let echoes = list_of(rest(case, 25), &mut echo_space);
    let reflectors = list_of(rest(case, 28), &mut reflector_space);
    let buffer = list_of(rest(case, 31), &mut space);
    let count = flat::slackjib_mixed_profile(
        rest(case, 1),
        step,
        running,
        start,
        high,
        low,
        distances,
        echoes,
        reflectors,
        buffer,
    );
    say_count(count, buffer, out)
}

// The case's call made, and its answer's words put; the number for no. The kinds stay numbers: here alone they are read, and each arm
// names its call.
pub(crate) fn answer(case: &[u16], out: &mut Answer) -> u16 {
    let kind = word_at(case, 0);
    match kind {
        1 => request(case, out),
        2 => revolution(case, out),
        3 => normal_plan(case, out),
        4 => read(case, out),
        5 => stretch(case, out),
        7 => flat_profile(case, out),
        8 => read_mixed(case, out),
        9 => stretch_mixed(case, out),
        10 => reflector(case, out),
        11 => all_reflectors(case, out),
        12 => flat_mixed_profile(case, out),
        _ => fresh(out),
    }
}
