// A whole profile of either kind: by its mask its head, its layer, and what stands behind its contour (rules 5.4 and 5.19).
ghost use Rattle.std.specs.Prelude.{◌≡◌, ◌+◌, ◌≤◌, length};
ghost use Rattle.words.specs.Buffers.{Put, Wrote};
ghost use Rattle.profile.specs.Profiles.{scan_of};
ghost use Rattle.profile.specs.Revolutions.{profile_by};
ghost use Rattle.profile.specs.Demands.{length_by};
ghost use Rattle.profile.specs.Asked.{head_by, end_by, ProfileAsked};

use crate::profiles::{plan_points, write_contour};
use crate::puts::put_words;
use crate::reflectors::put_reflector_part;
use crate::scans::Scan;
use layout::{MIXED_CODE, Mask, ONE_LAYER, PROFILE_CODE, REFLECTOR};
use state::State;

// The length of the profile (rules 5.8 and 5.20). That the list is short stays a clause, here and below: it is refusal 27 that says so, behind others.
pub(crate) fn length_by(state: State, mask: Mask, reflectors: &[u16]) -> usize
    requires { length reflectors.now ≤ 704 }
    ensures { result ≡ length_by state reflectors.now mask }
{
    layout::length_of(
        mask,
        plan::active_count(state.working) as u16,
        plan_points(state.working, state.step),
        (reflectors.len() / REFLECTOR) as u16,
    )
}

// The words that depend on no bit, over the front of the buffer; how many they are (rules 5.4 and 5.19).
fn put_head_by(out: &mut [u16], mask: Mask, sectors: u16) -> usize
    requires { (sectors ≤ 8) × (length (head_by mask sectors) ≤ length out.old) }
    ensures { Wrote (head_by mask sectors) out.old out.new result }
{
    let parts = ONE_LAYER + sectors;
    match mask {
        Mask::Plain(word) => put_words(out, 0, &[PROFILE_CODE, word, parts]),
        Mask::Mixed(high, low) => put_words(out, 0, &[MIXED_CODE, high, low, parts]),
    }
}

// What stands behind the contour, at a place: nothing in a plain profile, the reflectors in a mixed one; the place behind it (rule 5.19).
fn put_end_by(out: &mut [u16], at: usize, mask: Mask, list: &[u16]) -> usize
    requires { (at + length (end_by mask list.now) ≤ length out.old) × (length list.now ≤ 704) }
    ensures { Put (end_by mask list.now) out.old at out.new result }
{
    match mask {
        Mask::Plain(_) => at,
        Mask::Mixed(high, low) => put_reflector_part(
            out,
            at,
            layout::mixed_number(high, low),
            list,
        ),
    }
}

// The profile that a mask asks for, over the front of the buffer; how many words it has (rules 5.3 and 5.19). The contour is written in one
// place for both kinds, which the compiler then puts where it is called: so the plain profile costs what it did.
pub(crate) fn write_by(
    out: &mut [u16],
    state: State,
    scan: Scan,
    mask: Mask,
    sent: u16,
    counter: u16,
) -> usize
    requires { ProfileAsked state (scan_of scan) mask sent counter out.old }
    ensures { Wrote (profile_by state (scan_of scan.entry) mask sent counter) out.old out.new result }
{
    let number = layout::mask_number(mask);
    let layer = layout::layer_of(mask);
    let a = put_head_by(out, mask, plan::active_count(state.working) as u16);
    let b = write_contour(out, a, state, scan, number, layer, sent, counter);
    put_end_by(out, b, mask, scan.reflectors)
}
