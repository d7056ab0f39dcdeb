// SENSTAT's low word (rule 2.3).
ghost use Rattle.std.specs.Prelude.{◌≡◌};
ghost use Rattle.state.specs.Modes.{mode_number};

use crate::Mode;

pub fn mode_number(mode: Mode) -> u16
    ensures { result ≡ mode_number mode }
{
    mode as u16
}
