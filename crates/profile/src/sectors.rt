// The sectors of a profile, each into its own part of the buffer (rule 5.7).
ghost use Rattle.std.specs.Prelude.{◌+◌, ◌≤◌, length};
ghost use Rattle.words.specs.Buffers.{Put, Wrote};
ghost use Rattle.layout.specs.Layout.{layout_sector};
ghost use Rattle.profile.specs.Profiles.{scan_of, sector_of};
ghost use Rattle.profile.specs.Asked.{opening_words, closing_words, sectors_words, SectorAsked, SectorsAsked};

use crate::points::write_points;
use crate::puts::put_selected;
use crate::scans::Scan;
use layout::bits;
use plan::{Arc, Plan};
use units::{Angle, Time, shot_time};

// The selected words before a sector's points, at a place; the place behind them (rule 5.5).
fn put_opening(
    out: &mut [u16],
    at: usize,
    mask: u32,
    number: u16,
    step: Angle,
    points: u16,
    tstart: Time,
    startdir: Angle,
) -> usize
    requires { at + length (opening_words mask number step.0 points tstart.0 startdir.0) ≤ length out.old }
    ensures { Put (opening_words mask number step.0 points tstart.0 startdir.0) out.old at out.new result }
{
    let a = put_selected(out, at, mask, bits::NUMBER, number);
    let b = put_selected(out, a, mask, bits::STEP, step.0);
    let c = put_selected(out, b, mask, bits::POINTS, points);
    let d = put_selected(out, c, mask, bits::TSTART, tstart.0);
    put_selected(out, d, mask, bits::STARTDIR, startdir.0)
}

// The selected words behind a sector's points, at a place; the place behind them (rule 5.5).
fn put_closing(out: &mut [u16], at: usize, mask: u32, tend: Time, enddir: Angle) -> usize
    requires { at + length (closing_words mask tend.0 enddir.0) ≤ length out.old }
    ensures { Put (closing_words mask tend.0 enddir.0) out.old at out.new result }
{
    let a = put_selected(out, at, mask, bits::TEND, tend.0);
    put_selected(out, a, mask, bits::ENDDIR, enddir.0)
}

// One sector over the front of the rest of the buffer; how many words it has.
fn write_sector(
    out: &mut [u16],
    scan: Scan,
    rate: u32,
    step: Angle,
    mask: u32,
    number: u16,
    arc: Arc,
) -> usize
    requires { SectorAsked mask step.0 rate (scan_of scan) number arc out.old }
    ensures { Wrote (layout_sector (sector_of mask step.0 rate (scan_of scan.entry) number arc))
        out.old out.new result }
{
    let tstart = shot_time(scan.start, rate, arc.shot);
    let tend = shot_time(scan.start, rate, arc.shot + arc.shots - 1);
    let at = put_opening(out, 0, mask, number, step, arc.points, tstart, arc.first);
    let n = write_points(&mut out[at..], scan, arc, step, mask);
    put_closing(out, at + n, mask, tend, arc.last)
}

// The sectors of a plan, from a place on; the place behind them.
pub(crate) fn write_sectors(
    out: &mut [u16],
    from: usize,
    scan: Scan,
    rate: u32,
    plan: Plan,
    step: Angle,
    mask: u32,
) -> usize
    requires { SectorsAsked mask step.0 rate (scan_of scan) plan from out.old }
    ensures { Put (sectors_words mask step.0 rate (scan_of scan.entry) plan)
        out.old from out.new result }
{
    let mut at = from;
    for (k, arc) in plan::arcs_of(&plan, step).enumerate() {
        at += write_sector(&mut out[at..], scan, rate, step, mask, k as u16, arc);
    }
    at
}
