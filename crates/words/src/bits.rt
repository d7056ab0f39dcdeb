// The bits of a mask, of one word or of two.
ghost use Rattle.std.specs.Prelude.{◌≡◌};
ghost use Rattle.words.specs.Bits.{bit};

// Bit k is set. No mask has a bit past its 32nd.
#[tactic(auto, using(crate::proofs::BitLaws::no_bit))]
pub fn has_bit(mask: u32, k: u32) -> bool
    ensures { result ≡ bit mask k }
{
    if 31 < k {
        return false;
    }
    (mask >> k) % 2 == 1
}
