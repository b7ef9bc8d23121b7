//! The shift that is applied to a resource.
ghost use Rattle.std.specs.Prelude.{◌≡◌, option_map};
ghost use Rattle.arc_plain.specs.Precedence.{applied_to};
ghost use Rattle.arc_precedence.specs.Applied.{plain_of};

use crate::autoshift::autoshift_at;
use crate::found::{active_of, pending_of};
use arc_data::{Kind, ResourceId, ZoneName};
use arc_practice::Practices;
use arc_shift::{Resources, Shifts};

/// What decides which shift is applied: the customer's shifts, the practice runs, and the resources with the zones in
/// autoshift.
#[derive(Clone, Copy)]
pub struct ShiftsView<'a> {
    pub shifts: &'a Shifts,
    pub practices: &'a Practices,
    pub resources: &'a Resources,
}

/// The shift that is applied, and the zone from which it moves traffic away.
#[derive(Clone, Copy, PartialEq, Eq)]
pub struct Applied {
    pub kind: Kind,
    pub zone: ZoneName,
}

/// The shift that is applied to a resource: the customer's active shift, else the first started autoshift whose zone the
/// resource has, where autoshift is enabled for it, else the pending practice run.
pub fn applied_shift(v: &ShiftsView<'_>, resource: ResourceId, now: u64) -> Option<Applied>
    ensures { option_map plain_of result ≡
        applied_to v.now.shifts.now v.now.practices.now v.now.resources.now resource now }
{
    if let Some(shift) = active_of(v.shifts.list(), resource, now) {
        return Some(Applied {
            kind: Kind::Customer,
            zone: shift.away_from,
        });
    }
    if let Some(zone) = autoshift_at(v.resources, resource) {
        return Some(Applied {
            kind: Kind::Autoshift,
            zone,
        });
    }
    match pending_of(v.practices.list(), resource, now) {
        Some(run) => Some(Applied {
            kind: Kind::PracticeRun,
            zone: run.away_from,
        }),
        None => None,
    }
}
