// Plans and states as words, in and out.
use crate::answers::Answer;
use crate::cases::rest;
use flat::plan_of;
use layout::{Kind, Mask};
use plan::Plan;
use state::{Job, Mode, Reflector, Settings, State};
use units::{Angle, Millimetres, Percent};
use words::word_at;

// How many words a state has.
pub(crate) const STATE_WORDS: usize = 50;

// Stay functions: the types are other crates', so that no `From` can be written for them here.
// The mode of a word.
fn mode_of(w: u16) -> Mode {
    match w {
        1 => Mode::Idle,
        2 => Mode::Rotate,
        _ => Mode::Measure,
    }
}

// The kind of a mask, 0 for a plain one.
fn kind_of(w: u16) -> Kind {
    match w {
        0 => Kind::Plain,
        _ => Kind::Mixed,
    }
}

// The job of three words and a mask.
fn job_of(kind: u16, left: u16, mask: Mask, sent: u16) -> Job {
    match kind {
        0 => Job::Absent,
        1 => Job::Counted { left, mask, sent },
        _ => Job::Endless { mask, sent },
    }
}

// The pair of two words.
fn reflector_of(threshold: u16, radius: u16) -> Reflector {
    Reflector {
        threshold: Percent(threshold),
        radius: Millimetres(radius),
    }
}

// The settings at the front of the words.
fn settings_of(words: &[u16]) -> Settings {
    let working = reflector_of(word_at(words, 1), word_at(words, 2));
    let stored = reflector_of(word_at(words, 3), word_at(words, 4));
    Settings {
        rotation: word_at(words, 0),
        working,
        stored,
    }
}

// The state at the front of the words.
pub(crate) fn state_of(words: &[u16]) -> State {
    let configured = state::with_config(
        state::fresh(),
        word_at(words, 0),
        word_at(words, 1),
        Angle(word_at(words, 2)),
    );
    let working = plan_of(rest(words, 3));
    let stored = plan_of(rest(words, 19));
    let planned = state::with_plans(configured, working, stored);
    let mode = mode_of(word_at(words, 35));
    let kind = kind_of(word_at(words, 48));
    let mask = layout::mask_from(kind, word_at(words, 49), word_at(words, 41));
    let job = job_of(
        word_at(words, 39),
        word_at(words, 40),
        mask,
        word_at(words, 42),
    );
    let driven = state::with_drive(planned, mode, word_at(words, 36), job);
    let port = (word_at(words, 37) % 256) as u8;
    let counted = state::with_counter(state::with_port(driven, port), word_at(words, 38));
    state::with_settings(counted, settings_of(rest(words, 43)))
}

// A plan's 16 words.
pub(crate) fn put_plan(out: &mut Answer, plan: Plan) {
    for sector in plan.sectors {
        out.put_all(&[sector.function, sector.stop.0]);
    }
}

// A mask's kind, high word and low word; a plain one has no high word.
#[derive(Clone, Copy)]
struct MaskWords {
    kind: u16,
    high: u16,
    low: u16,
}

fn mask_words(mask: Mask) -> MaskWords {
    match mask {
        Mask::Plain(word) => MaskWords {
            kind: 0,
            high: 0,
            low: word,
        },
        Mask::Mixed(high, low) => MaskWords { kind: 1, high, low },
    }
}

// A job's four words, 0 for what it does not have; of its mask the low word.
fn put_job(out: &mut Answer, job: Job) {
    match job {
        Job::Absent => out.put_all(&[0, 0, 0, 0]),
        Job::Counted { left, mask, sent } => out.put_all(&[1, left, mask_words(mask).low, sent]),
        Job::Endless { mask, sent } => out.put_all(&[2, 0, mask_words(mask).low, sent]),
    }
}

// The kind of a job's mask, and its high word.
fn put_mask_kind(out: &mut Answer, job: Job) {
    let words = mask_words(state::mask_of(job));
    out.put_all(&[words.kind, words.high]);
}

// A pair's two words.
fn put_reflector(out: &mut Answer, reflector: Reflector) {
    out.put_all(&[reflector.threshold.0, reflector.radius.0]);
}

// The five words of the settings.
fn put_settings(out: &mut Answer, settings: Settings) {
    out.put(settings.rotation);
    put_reflector(out, settings.working);
    put_reflector(out, settings.stored);
}

// A state's words.
pub(crate) fn put_state(out: &mut Answer, state: State) {
    out.put_all(&[state.id, state.speed, state.step.0]);
    put_plan(out, state.working);
    put_plan(out, state.stored);
    let shown = state::mode_number(state.mode);
    out.put_all(&[shown, state.running, u16::from(state.port), state.counter]);
    put_job(out, state.job);
    put_settings(out, state.settings);
    put_mask_kind(out, state.job);
}
