// The ranges of the NAV300's settings (rule 2.10).
ghost use Rattle.std.specs.Prelude.{◌≡◌};
ghost use Rattle.state.specs.Nav300.{rotation_ok, threshold_ok, radius_ok, reflector_ok, settings_ok};

use crate::{Reflector, Settings};
use units::{Millimetres, Percent};

// 0, anti-clockwise, or 1, clockwise.
pub fn rotation_ok(rotation: u16) -> bool
    ensures { result ≡ rotation_ok rotation }
{
    rotation <= 1
}

// 1 to 100 %.
pub fn threshold_ok(threshold: Percent) -> bool
    ensures { result ≡ threshold_ok threshold.0 }
{
    (1..=100).contains(&threshold.0)
}

// Up to 127 mm.
pub fn radius_ok(radius: Millimetres) -> bool
    ensures { result ≡ radius_ok radius.0 }
{
    radius.0 <= 127
}

// Threshold and radius, each in its range.
fn reflector_ok(reflector: Reflector) -> bool
    ensures { result ≡ reflector_ok reflector }
{
    threshold_ok(reflector.threshold) && radius_ok(reflector.radius)
}

// All of them.
pub(crate) fn settings_ok(settings: Settings) -> bool
    ensures { result ≡ settings_ok settings }
{
    rotation_ok(settings.rotation)
        && reflector_ok(settings.working)
        && reflector_ok(settings.stored)
}
