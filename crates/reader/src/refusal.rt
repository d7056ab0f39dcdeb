// The refusals by their numbers.
ghost use Rattle.std.specs.Prelude.{◌≡◌};
ghost use Rattle.reader.specs.Said.{refusal_number};

use crate::ReadRefusal;

impl<P> ReadRefusal<P> {
    // Its number (rule 6.1). A match: an enum with a variant that holds something has no numbers of its own.
    pub fn number(&self) -> u16
        ensures { result ≡ refusal_number self.now }
    {
        match self {
            ReadRefusal::NoProfile => 12,
            ReadRefusal::ShortHead => 13,
            ReadRefusal::Uncounted => 14,
            ReadRefusal::EndsEarly { .. } => 15,
            ReadRefusal::LeftOver => 16,
            ReadRefusal::NoSuchPlace => 17,
            ReadRefusal::Mask => 22,
            ReadRefusal::Layers => 23,
            ReadRefusal::SectorCount => 24,
            ReadRefusal::ManyReflectors => 27,
        }
    }
}
