// What a plain and a mixed profile share, their contour.
ghost use Rattle.std.specs.Prelude.{◌≡◌, ◌+◌, ◌≤◌, length};
ghost use Rattle.words.specs.Lists.{total};
ghost use Rattle.words.specs.Buffers.{Put};
ghost use Rattle.plan.specs.Sectors.{active_of};
ghost use Rattle.plan.specs.Shots.{arcs};
ghost use Rattle.layout.specs.Layout.{contour};
ghost use Rattle.profile.specs.Profiles.{scan_of};
ghost use Rattle.profile.specs.Asked.{front_words, status_words, contour_fields, ContourAsked};

use crate::puts::{put_chosen, put_selected};
use crate::scans::Scan;
use crate::sectors::write_sectors;
use layout::bits;
use plan::Plan;
use state::State;
use units::Angle;

// The points of all sectors of a plan (rule 5.8).
pub(crate) fn plan_points(plan: Plan, step: Angle) -> u16
    ensures { result ≡ total (λ a. a.points) (arcs step.0 (active_of plan)) }
{
    plan::arcs_of(&plan, step).map(|arc| arc.points).sum()
}

// The selected words before the sectors, at a place; the place behind them (rule 5.5).
fn put_front(out: &mut [u16], at: usize, mask: u32, sent: u16, counter: u16, layer: u16) -> usize
    requires { at + length (front_words mask sent counter layer) ≤ length out.old }
    ensures { Put (front_words mask sent counter layer) out.old at out.new result }
{
    let a = put_selected(out, at, mask, bits::SENT, sent);
    let b = put_selected(out, a, mask, bits::COUNTER, counter);
    put_selected(out, b, mask, bits::LAYER, layer)
}

// SENSTAT behind the sectors, at a place; the place behind it (rule 5.5).
fn put_status(out: &mut [u16], at: usize, mask: u32, status: u16) -> usize
    requires { at + length (status_words mask status) ≤ length out.old }
    ensures { Put (status_words mask status) out.old at out.new result }
{
    put_chosen(out, at, mask, bits::SENSTAT, &[0, status])
}

// All that goes by bits 0 to 13 of a mask, at a place; the place behind it (rules 5.5 and 5.19).
pub(crate) fn write_contour(
    out: &mut [u16],
    from: usize,
    state: State,
    scan: Scan,
    mask: u32,
    layer: u16,
    sent: u16,
    counter: u16,
) -> usize
    requires { ContourAsked state (scan_of scan) mask layer sent counter from out.old }
    ensures { Put (contour (contour_fields state (scan_of scan.entry) mask layer sent counter))
        out.old from out.new result }
{
    let rate = words::product(state.running, units::revolution_shots(state.step));
    let a = put_front(out, from, mask, sent, counter, layer);
    let b = write_sectors(out, a, scan, rate, state.working, state.step, mask);
    put_status(out, b, mask, state::mode_number(state.mode))
}
