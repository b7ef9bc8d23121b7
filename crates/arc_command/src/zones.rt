//! How long the names of zones are, which every zone tells: calls that do nothing.
ghost use Rattle.std.specs.Prelude.{◌≤◌, length};
ghost use Rattle.std.specs.List.{AllByRecursion};
ghost use Rattle.arc_command.specs.Typed.{IsShortZone, HasShortZones, HasShortZonesIn};

use crate::{Op, Record, ZoneName};

/// A zone's name is short.
fn is_short(zone: &ZoneName)
    ensures { IsShortZone zone.now }
{
    let _ = zone.as_str();
}

/// The names of zones are short.
fn are_short(zones: &[ZoneName])
    ensures { AllByRecursion IsShortZone zones.now }
{
    for zone in zones {
        is_short(zone);
    }
}

/// The names of an operation's zones are short.
pub(crate) fn zones_are_short(op: &Op)
    ensures { HasShortZones op.now }
{
    match op {
        Op::CreateControlPanel { .. } => {}
        Op::DeleteControlPanel { .. } => {}
        Op::CreateRoutingControl { .. } => {}
        Op::DeleteRoutingControl { .. } => {}
        Op::ListRoutingControls { .. } => {}
        Op::GetRoutingControlState { .. } => {}
        Op::UpdateRoutingControlState { .. } => {}
        Op::UpdateRoutingControlStates { .. } => {}
        Op::CreateSafetyRule { .. } => {}
        Op::UpdateSafetyRule { .. } => {}
        Op::DeleteSafetyRule { .. } => {}
        Op::ListSafetyRules { .. } => {}
        Op::RegisterManagedResource { zones, .. } => are_short(zones.as_slice()),
        Op::GetManagedResource { .. } => {}
        Op::ListManagedResources => {}
        Op::StartZonalShift { away_from, .. } => is_short(away_from),
        Op::UpdateZonalShift { .. } => {}
        Op::CancelZonalShift { .. } => {}
        Op::ListZonalShifts { .. } => {}
        Op::CreatePracticeRunConfiguration { .. } => {}
        Op::UpdatePracticeRunConfiguration { .. } => {}
        Op::DeletePracticeRunConfiguration { .. } => {}
        Op::StartPracticeRun { away_from, .. } => is_short(away_from),
        Op::CancelPracticeRun { .. } => {}
        Op::UpdateZonalAutoshiftConfiguration { .. } => {}
        Op::StartAutoshift { away_from } => is_short(away_from),
        Op::EndAutoshift { away_from } => is_short(away_from),
        Op::SetAlarmState { .. } => {}
    }
}

/// The names of an entry's zones are short.
pub(crate) fn zones_in_are_short(r: &Record)
    ensures { HasShortZonesIn r.now }
{
    match r {
        Record::Opened { .. } => {}
        Record::Promised { .. } => {}
        Record::Voted { command, .. } => zones_are_short(&command.op),
        Record::Closed { command, .. } => zones_are_short(&command.op),
    }
}
