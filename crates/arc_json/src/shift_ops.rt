//! Operations on resources, shifts, practice runs, autoshifts and alarms, read from their members.
ghost use Rattle.std.specs.Prelude.{◌≡◌, [], IfOk, codes, ⊤};
ghost use Rattle.std.specs.Str.{bytes_eq};
ghost use Rattle.serde_json.specs.View.{view};
ghost use Rattle.arc_data.specs.Valid.{AreBlocking, AreDates, AreOutcome, AreWindows, AreZones, IsChange, IsConfig, IsName, IsValid};
ghost use Rattle.arc_members.specs.Members.{defaulted};
ghost use Rattle.arc_members.specs.Reading.{Gives};
ghost use Rattle.arc_members.specs.Values.{zone_in};
ghost use Rattle.arc_json.specs.Practice.{alarm_in, alarm_members, blocking_in, cancel_practice_run, cancel_zonal_shift, change_given, config_given, create_practice_run_configuration, dates_in, delete_practice_run_configuration, end_autoshift, get_managed_resource, list_zonal_shifts, outcome_in, register_managed_resource, set_alarm_state, start_autoshift, start_practice_run, start_zonal_shift, update_practice_run_configuration, update_zonal_autoshift_configuration, update_zonal_shift, windows_in, zones_in};

use arc_data::{
    List, Op, PracticeChange, PracticeConfig, ResourceId, ShiftId, Status, Text, Window, ZoneName,
};
use arc_members::{
    Apart, Comment, Day, Enabled, Kind, Minutes, Name, Red, RequestEnd, Zone, defaulted, list_in,
    object_in, optional, required, set_in,
};
use serde_json::Value;
use std::alloc::{AllocError, AllocFailed, Global};

/// A zone of a resource.
struct Home;

impl Kind for Home {
    type Read = ZoneName;

    ghost reading = { zone_in };

    ghost Holds = { λ _. ⊤ };

    fn read(alloc: Global, value: &Value) -> Result<ZoneName, RequestEnd> {
        Zone::read(alloc, value)
    }
}

impl Apart for Home {
    ghost same = { bytes_eq };

    fn is_same(a: &ZoneName, b: &ZoneName) -> bool {
        a.as_str() == b.as_str()
    }
}

/// The zones of a resource: from 1 to 6, each once.
struct Zones;

impl Kind for Zones {
    type Read = List<ZoneName>;

    ghost reading = { zones_in };

    ghost Holds = { AreZones };

    #[tactic(auto, using(crate::proofs::Apart::zones_apart), unfolding(crate::specs::Practice::zones_in))]
    fn read(alloc: Global, value: &Value) -> Result<List<ZoneName>, RequestEnd> {
        set_in::<Home>(alloc, value, 1, 6)
    }
}

/// An alarm, as an object that has its name.
struct Alarm;

impl Kind for Alarm {
    type Read = Text;

    ghost reading = { alarm_in };

    ghost Holds = { IsName };

    #[tactic(auto, unfolding(crate::specs::Practice::alarm_in, crate::specs::Practice::alarm_members))]
    fn read(alloc: Global, value: &Value) -> Result<Text, RequestEnd> {
        required::<Name>(alloc, object_in(value)?, "alarmIdentifier")
    }
}

/// Blocked dates: at most 15.
struct Dates;

impl Kind for Dates {
    type Read = List<u32>;

    ghost reading = { dates_in };

    ghost Holds = { AreDates };

    #[tactic(auto, unfolding(crate::specs::Practice::dates_in))]
    fn read(alloc: Global, value: &Value) -> Result<List<u32>, RequestEnd> {
        list_in::<Day>(alloc, value, 0, 15)
    }
}

/// Blocked windows: at most 15.
struct Windows;

impl Kind for Windows {
    type Read = List<Window>;

    ghost reading = { windows_in };

    ghost Holds = { AreWindows };

    #[tactic(auto, unfolding(crate::specs::Practice::windows_in))]
    fn read(alloc: Global, value: &Value) -> Result<List<Window>, RequestEnd> {
        list_in::<Window>(alloc, value, 0, 15)
    }
}

/// Alarms that don't let a run start: at most 4.
struct Blocking;

impl Kind for Blocking {
    type Read = List<Text>;

    ghost reading = { blocking_in };

    ghost Holds = { AreBlocking };

    #[tactic(auto, unfolding(crate::specs::Practice::blocking_in))]
    fn read(alloc: Global, value: &Value) -> Result<List<Text>, RequestEnd> {
        list_in::<Alarm>(alloc, value, 0, 4)
    }
}

/// Alarms that make a run fail: from 1 to 4.
struct Outcomes;

impl Kind for Outcomes {
    type Read = List<Text>;

    ghost reading = { outcome_in };

    ghost Holds = { AreOutcome };

    #[tactic(auto, unfolding(crate::specs::Practice::outcome_in))]
    fn read(alloc: Global, value: &Value) -> Result<List<Text>, RequestEnd> {
        list_in::<Alarm>(alloc, value, 1, 4)
    }
}

/// Registers a resource.
#[tactic(auto, unfolding(crate::specs::Practice::register_managed_resource))]
pub(crate) fn register_managed_resource(alloc: Global, object: &Value) -> Result<Op, RequestEnd>
    ensures gives { Gives result (register_managed_resource (view object.now)) }
    ensures valid { IfOk result IsValid }
{
    let name = required::<Name>(alloc, object, "name")?;
    let zones = required::<Zones>(alloc, object, "availabilityZones")?;
    Ok(Op::RegisterManagedResource { name, zones })
}

/// Tells what is kept of a resource.
#[tactic(auto, unfolding(crate::specs::Practice::get_managed_resource))]
pub(crate) fn get_managed_resource(alloc: Global, object: &Value) -> Result<Op, RequestEnd>
    ensures gives { Gives result (get_managed_resource (view object.now)) }
    ensures valid { IfOk result IsValid }
{
    let resource = required::<ResourceId>(alloc, object, "resourceIdentifier")?;
    Ok(Op::GetManagedResource { resource })
}

/// Starts a shift.
#[tactic(auto, unfolding(crate::specs::Practice::start_zonal_shift))]
pub(crate) fn start_zonal_shift(alloc: Global, object: &Value) -> Result<Op, RequestEnd>
    ensures gives { Gives result (start_zonal_shift (view object.now)) }
    ensures valid { IfOk result IsValid }
{
    let resource = required::<ResourceId>(alloc, object, "resourceIdentifier")?;
    let away_from = required::<Zone>(alloc, object, "awayFrom")?;
    let expires_min = required::<Minutes>(alloc, object, "expiresIn")?;
    let comment = required::<Comment>(alloc, object, "comment")?;
    Ok(Op::StartZonalShift {
        resource,
        away_from,
        expires_min,
        comment,
    })
}

/// Sets what is given of a shift.
#[tactic(auto, unfolding(crate::specs::Practice::update_zonal_shift))]
pub(crate) fn update_zonal_shift(alloc: Global, object: &Value) -> Result<Op, RequestEnd>
    ensures gives { Gives result (update_zonal_shift (view object.now)) }
    ensures valid { IfOk result IsValid }
{
    let shift = required::<ShiftId>(alloc, object, "zonalShiftId")?;
    let comment = optional::<Comment>(alloc, object, "comment")?;
    let expires_min = optional::<Minutes>(alloc, object, "expiresIn")?;
    Ok(Op::UpdateZonalShift {
        shift,
        comment,
        expires_min,
    })
}

/// Cancels a shift.
#[tactic(auto, unfolding(crate::specs::Practice::cancel_zonal_shift))]
pub(crate) fn cancel_zonal_shift(alloc: Global, object: &Value) -> Result<Op, RequestEnd>
    ensures gives { Gives result (cancel_zonal_shift (view object.now)) }
    ensures valid { IfOk result IsValid }
{
    let shift = required::<ShiftId>(alloc, object, "zonalShiftId")?;
    Ok(Op::CancelZonalShift { shift })
}

/// Lists shifts and practice runs.
#[tactic(auto, unfolding(crate::specs::Practice::list_zonal_shifts))]
pub(crate) fn list_zonal_shifts(alloc: Global, object: &Value) -> Result<Op, RequestEnd>
    ensures gives { Gives result (list_zonal_shifts (view object.now)) }
    ensures valid { IfOk result IsValid }
{
    let resource = optional::<ResourceId>(alloc, object, "resourceIdentifier")?;
    let status = optional::<Status>(alloc, object, "status")?;
    Ok(Op::ListZonalShifts { resource, status })
}

/// Blocked dates; none where none are given.
fn dates_given(alloc: Global, object: &Value) -> Result<List<u32>, RequestEnd>
    ensures gives { Gives result (defaulted [] dates_in (codes "blockedDates") (view object.now)) }
    ensures within { IfOk result AreDates }
{
    let none = List::of(Vec::new(alloc));
    defaulted::<Dates>(alloc, object, "blockedDates", none)
}

/// Blocked windows; none where none are given.
fn windows_given(alloc: Global, object: &Value) -> Result<List<Window>, RequestEnd>
    ensures gives { Gives result (defaulted [] windows_in (codes "blockedWindows") (view object.now)) }
    ensures within { IfOk result AreWindows }
{
    let none = List::of(Vec::new(alloc));
    defaulted::<Windows>(alloc, object, "blockedWindows", none)
}

/// Blocking alarms; none where none are given.
fn blocking_given(alloc: Global, object: &Value) -> Result<List<Text>, RequestEnd>
    ensures gives { Gives result (defaulted [] blocking_in (codes "blockingAlarms") (view object.now)) }
    ensures within { IfOk result AreBlocking }
{
    let none = List::of(Vec::new(alloc));
    defaulted::<Blocking>(alloc, object, "blockingAlarms", none)
}

/// A configuration of practice runs.
#[tactic(auto, unfolding(crate::specs::Practice::config_given))]
fn config_given(alloc: Global, object: &Value) -> Result<PracticeConfig, RequestEnd>
    ensures gives { Gives result (config_given (view object.now)) }
    ensures within { IfOk result IsConfig }
{
    let blocked_dates = dates_given(alloc, object)?;
    let blocked_windows = windows_given(alloc, object)?;
    let blocking_alarms = blocking_given(alloc, object)?;
    let outcome_alarms = required::<Outcomes>(alloc, object, "outcomeAlarms")?;
    Ok(PracticeConfig {
        blocked_dates,
        blocked_windows,
        blocking_alarms,
        outcome_alarms,
    })
}

/// A change of a configuration.
#[tactic(auto, unfolding(crate::specs::Practice::change_given))]
fn change_given(alloc: Global, object: &Value) -> Result<PracticeChange, RequestEnd>
    ensures gives { Gives result (change_given (view object.now)) }
    ensures within { IfOk result IsChange }
{
    let blocked_dates = optional::<Dates>(alloc, object, "blockedDates")?;
    let blocked_windows = optional::<Windows>(alloc, object, "blockedWindows")?;
    let blocking_alarms = optional::<Blocking>(alloc, object, "blockingAlarms")?;
    let outcome_alarms = optional::<Outcomes>(alloc, object, "outcomeAlarms")?;
    Ok(PracticeChange {
        blocked_dates,
        blocked_windows,
        blocking_alarms,
        outcome_alarms,
    })
}

/// Configures the practice runs of a resource.
#[tactic(auto, unfolding(crate::specs::Practice::create_practice_run_configuration))]
pub(crate) fn create_practice_run_configuration(
    alloc: Global,
    object: &Value,
) -> Result<Op, RequestEnd>
    ensures gives { Gives result (create_practice_run_configuration (view object.now)) }
    ensures valid { IfOk result IsValid }
{
    let resource = required::<ResourceId>(alloc, object, "resourceIdentifier")?;
    let config = config_given(alloc, object)?;
    Ok(Op::CreatePracticeRunConfiguration { resource, config })
}

/// Replaces what is given of a configuration.
#[tactic(auto, unfolding(crate::specs::Practice::update_practice_run_configuration))]
pub(crate) fn update_practice_run_configuration(
    alloc: Global,
    object: &Value,
) -> Result<Op, RequestEnd>
    ensures gives { Gives result (update_practice_run_configuration (view object.now)) }
    ensures valid { IfOk result IsValid }
{
    let resource = required::<ResourceId>(alloc, object, "resourceIdentifier")?;
    let change = change_given(alloc, object)?;
    Ok(Op::UpdatePracticeRunConfiguration { resource, change })
}

/// Removes a configuration.
#[tactic(auto, unfolding(crate::specs::Practice::delete_practice_run_configuration))]
pub(crate) fn delete_practice_run_configuration(
    alloc: Global,
    object: &Value,
) -> Result<Op, RequestEnd>
    ensures gives { Gives result (delete_practice_run_configuration (view object.now)) }
    ensures valid { IfOk result IsValid }
{
    let resource = required::<ResourceId>(alloc, object, "resourceIdentifier")?;
    Ok(Op::DeletePracticeRunConfiguration { resource })
}

/// Starts a practice run.
#[tactic(auto, unfolding(crate::specs::Practice::start_practice_run))]
pub(crate) fn start_practice_run(alloc: Global, object: &Value) -> Result<Op, RequestEnd>
    ensures gives { Gives result (start_practice_run (view object.now)) }
    ensures valid { IfOk result IsValid }
{
    let resource = required::<ResourceId>(alloc, object, "resourceIdentifier")?;
    let away_from = required::<Zone>(alloc, object, "awayFrom")?;
    let comment = required::<Comment>(alloc, object, "comment")?;
    Ok(Op::StartPracticeRun {
        resource,
        away_from,
        comment,
    })
}

/// Interrupts a practice run.
#[tactic(auto, unfolding(crate::specs::Practice::cancel_practice_run))]
pub(crate) fn cancel_practice_run(alloc: Global, object: &Value) -> Result<Op, RequestEnd>
    ensures gives { Gives result (cancel_practice_run (view object.now)) }
    ensures valid { IfOk result IsValid }
{
    let shift = required::<ShiftId>(alloc, object, "zonalShiftId")?;
    Ok(Op::CancelPracticeRun { shift })
}

/// Sets whether zones in autoshift move traffic away.
#[tactic(auto, unfolding(crate::specs::Practice::update_zonal_autoshift_configuration))]
pub(crate) fn update_zonal_autoshift_configuration(
    alloc: Global,
    object: &Value,
) -> Result<Op, RequestEnd>
    ensures gives { Gives result (update_zonal_autoshift_configuration (view object.now)) }
    ensures valid { IfOk result IsValid }
{
    let resource = required::<ResourceId>(alloc, object, "resourceIdentifier")?;
    let enabled = required::<Enabled>(alloc, object, "zonalAutoshiftStatus")?;
    Ok(Op::UpdateZonalAutoshiftConfiguration { resource, enabled })
}

/// Puts a zone into autoshift.
#[tactic(auto, unfolding(crate::specs::Practice::start_autoshift))]
pub(crate) fn start_autoshift(alloc: Global, object: &Value) -> Result<Op, RequestEnd>
    ensures gives { Gives result (start_autoshift (view object.now)) }
    ensures valid { IfOk result IsValid }
{
    let away_from = required::<Zone>(alloc, object, "awayFrom")?;
    Ok(Op::StartAutoshift { away_from })
}

/// Takes a zone out of autoshift.
#[tactic(auto, unfolding(crate::specs::Practice::end_autoshift))]
pub(crate) fn end_autoshift(alloc: Global, object: &Value) -> Result<Op, RequestEnd>
    ensures gives { Gives result (end_autoshift (view object.now)) }
    ensures valid { IfOk result IsValid }
{
    let away_from = required::<Zone>(alloc, object, "awayFrom")?;
    Ok(Op::EndAutoshift { away_from })
}

/// Sets an alarm red or not.
#[tactic(auto, unfolding(crate::specs::Practice::set_alarm_state))]
pub(crate) fn set_alarm_state(alloc: Global, object: &Value) -> Result<Op, RequestEnd>
    ensures gives { Gives result (set_alarm_state (view object.now)) }
    ensures valid { IfOk result IsValid }
{
    let alarm = required::<Name>(alloc, object, "alarmIdentifier")?;
    let red = required::<Red>(alloc, object, "state")?;
    Ok(Op::SetAlarmState { alarm, red })
}
