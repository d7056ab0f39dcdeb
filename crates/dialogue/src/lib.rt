// The program's two forms: records of bytes in, lines of text out.
#![tactic(auto)]

use state::State;

mod lines;
mod records;
mod talks;

pub use lines::write_line;
pub use records::take_record;
pub use talks::answer;

// What stands at the front of some bytes: nothing, a record that their end cuts, or a whole record of so many words. Three cases, and no Option.
#[derive(Clone, Copy)]
pub enum Record {
    End,
    Cut,
    Whole(u8),
}

// What became of a record that was answered: the next state, how many bytes were taken, and how long its line is.
#[derive(Clone, Copy)]
pub struct Said {
    pub state: State,
    pub taken: usize,
    pub length: usize,
}
