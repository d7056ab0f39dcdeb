// The times of shots.
ghost use Rattle.std.specs.Prelude.{◌≡◌};
ghost use Rattle.units.specs.Times.{shot_time};

use crate::Time;

// When shot k is fired; the rate is the running speed times the shots of a revolution (rule 3.7).
pub fn shot_time(start: Time, rate: u32, k: u16) -> Time
    ensures { result.0 ≡ shot_time start.0 rate k }
{
    if rate == 0 {
        return start;
    }
    // half milliseconds, cut off; one more, and two make one: so a half goes up
    let halves = 2000 * (k as u32) / rate;
    let ms = (halves + 1) / 2;
    Time(((start.0 as u32 + ms) % 65536) as u16)
}
