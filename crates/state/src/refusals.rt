// The numbers for no (rule 6.1).
ghost use Rattle.std.specs.Prelude.{◌≡◌};
ghost use Rattle.state.specs.Replies.{refusal_number};

use crate::Refusal;

impl Refusal {
    pub fn number(self) -> u16
        ensures { result ≡ refusal_number self }
    {
        self as u16
    }
}
