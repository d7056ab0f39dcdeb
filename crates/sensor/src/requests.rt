// One request: refusals 1 to 6 in their order, and the answer written last.
ghost use Rattle.std.specs.Prelude.{◌≡◌, ◌≤◌, length};
ghost use Rattle.state.specs.declared.State.{State};
ghost use Rattle.state.specs.Replies.{said, Answered, delivered};
ghost use Rattle.services.specs.Answers.{longest, Gives, unpacked};
ghost use Rattle.sensor.specs.Table.{service_of};
ghost use Rattle.sensor.specs.Requests.{service_refusal, request_refusal, outcome, RequestSays};

use crate::counts::{is_refused, say_miscount};
use crate::table::{Row, admit_mode, response_code, row_of, serve};
use services::Served;
use state::{Mode, Refusal, Reply, State};

// Refusals 3, 4 and 5. A wrong number of words that is not refused is answered, and that is for the mode to allow (rules 4.25 and 6.1).
#[tactic(auto, unfolding(crate::specs::Requests::service_refusal))]
fn admit_service(code: u16, count: usize, mode: Mode) -> Result<(), Refusal>
    ensures { said result ≡ service_refusal (service_of code) count mode }
{
    let row = row_of(code);
    let Row(_, want, .., miscount) = row;
    // as `is_listed` of the specs has it: the row of a code that is not in the table asks for no word
    if want == 0 {
        return Err(Refusal::UnknownCode);
    }
    if count != want && is_refused(miscount) {
        return Err(Refusal::WrongCount);
    }
    admit_mode(row, mode)
}

// Refusals 1 to 5 (rule 6.1).
#[tactic(auto, unfolding(crate::specs::Requests::request_refusal))]
fn admit(state: State, words: &[u16]) -> Result<(), Refusal>
    ensures { said result ≡ request_refusal state words.now }
{
    if !state::in_range(state) {
        return Err(Refusal::OutOfRange);
    }
    let Some(&code) = words.first() else {
        return Err(Refusal::NoWord);
    };
    admit_service(code, words.len(), state.mode)
}

// What the service of the first word does with the others, or what it answers to a wrong number of them (rule 4.25).
fn serve_words(state: State, words: &[u16]) -> Served
    ensures { Gives result (outcome state words.now) }
{
    let code = words::word_at(words, 0);
    let Row(service, want, .., miscount) = row_of(code);
    let response = response_code(code);
    if words.len() != want {
        return say_miscount(state, response, miscount);
    }
    let a = words::word_at(words, 1);
    let b = words::word_at(words, 2);
    let c = words::word_at(words, 3);
    let d = words::word_at(words, 4);
    serve(service, state, response, a, b, c, d)
}

// Refusal 6, or the answer written to the start of the buffer, and the next state (rules 4.17 and 6.2).
fn deliver(served: Served, out: &mut [u16]) -> Result<Reply, Refusal>
    requires { served.count ≤ longest }
    ensures { (s : State) → Answered s result out.old out.new (delivered s (unpacked served) (length out.old)) }
{
    let Served {
        state,
        words,
        count,
    } = served;
    if out.len() < count {
        return Err(Refusal::NoRoom);
    }
    out[..count].copy_from_slice(&words[..count]);
    Ok(Reply { state, count })
}

// One request, answered into the buffer that is lent (rule 4.17).
pub fn request(state: State, words: &[u16], out: &mut [u16]) -> Result<Reply, Refusal>
    ensures { RequestSays state words.now out.old out.new result }
{
    admit(state, words)?;
    deliver(serve_words(state, words), out)
}
