// The entries of a plan, one at a time.
ghost use Rattle.std.specs.Prelude.{◌≡◌};
ghost use Rattle.plan.specs.Sectors.{unused as Sectors·unused, entry_at, with_entry};

use crate::{Plan, Sector};

// An entry that is not used: 0/0.
pub fn unused() -> Sector
    ensures { result ≡ Sectors·unused }
{
    Sector::default()
}

// The entry at a place, 0/0 past the last.
pub fn entry_at(plan: Plan, place: usize) -> Sector
    ensures { result ≡ entry_at plan place }
{
    plan.sectors.get(place).copied().unwrap_or(unused())
}

// The plan with the entry at a place set; as it was where there is no such place (rule 4.8).
pub fn with_entry(plan: Plan, place: usize, entry: Sector) -> Plan
    ensures { result ≡ with_entry plan place entry }
{
    let mut next = plan;
    // by its index: of an element that `get_mut` lends no contract says what it becomes
    if place < next.sectors.len() {
        next.sectors[place] = entry;
    }
    next
}
