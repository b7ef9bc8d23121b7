//! The bytes of operations on practice runs.
ghost use Rattle.std.specs.Prelude.{◌≡◌, ◌<◌, ◌≤◌, ◌++◌, ◌^◌, All, IfSome, OnOk, length};
ghost use Rattle.std.specs.List.{AllByRecursion};
ghost use Rattle.std.specs.Str.{IsUtf8};
ghost use Rattle.arc_command.specs.Reader.{option_at, list_at};
ghost use Rattle.arc_command.specs.Reading.{Gives, practice_config_at, practice_change_at, create_practice_run_configuration_at, update_practice_run_configuration_at, start_practice_run_at, set_alarm_state_at};
ghost use Rattle.arc_command.specs.Spelling.{text_bytes, list_bytes, option_bytes, resource_bytes, practice_config_bytes, practice_change_bytes};
ghost use Rattle.arc_command.specs.Typed.{IsTypedConfig, IsTypedChange, IsTypedResource, IsTypedZone};
ghost use Rattle.arc_data.specs.Valid.{IsComment, IsConfig, IsChange};
ghost use Rattle.arc_bytes.specs.Adding.{Adds};

use crate::field::{Field, put_list, put_text, read_list, read_text};
use crate::fields::{put_resource, put_switch, put_zone, read_resource, read_switch, read_zone};
use crate::{CommandEnd, List, Op, PracticeChange, PracticeConfig, ResourceId, Text, ZoneName};
use arc_bytes::Memory;
use std::alloc::Global;

/// Puts a configuration at the end.
#[tactic(auto, unfolding(crate::specs::Spelling::practice_config_bytes))]
pub(crate) fn put_practice_config(out: &mut Vec<u8>, config: &PracticeConfig) -> Result<(), Memory>
    requires { IsConfig config.now }
    ensures adds { Adds out.old out.new (practice_config_bytes config.now) result }
    ensures typed { OnOk result (IsTypedConfig config.now) }
{
    put_list(out, &config.blocked_dates)?;
    put_list(out, &config.blocked_windows)?;
    put_list(out, &config.blocking_alarms)?;
    put_list(out, &config.outcome_alarms)
}

/// A configuration.
#[tactic(auto, unfolding(crate::specs::Reading::practice_config_at))]
fn read_practice_config(
    alloc: Global,
    bytes: &[u8],
    at: usize,
) -> Result<(PracticeConfig, usize), CommandEnd>
    ensures { Gives result (practice_config_at bytes.now at) }
{
    let (blocked_dates, at) = read_list(alloc, bytes, at, 0, 15)?;
    let (blocked_windows, at) = read_list(alloc, bytes, at, 0, 15)?;
    let (blocking_alarms, at) = read_list(alloc, bytes, at, 0, 4)?;
    let (outcome_alarms, at) = read_list(alloc, bytes, at, 1, 4)?;
    let config = PracticeConfig {
        blocked_dates,
        blocked_windows,
        blocking_alarms,
        outcome_alarms,
    };
    Ok((config, at))
}

/// Puts a list at the end, where one is given.
#[tactic(auto, unfolding(crate::specs::Spelling::option_bytes))]
fn put_given_list<T: Field>(out: &mut Vec<u8>, items: &Option<List<T>>) -> Result<(), Memory>
    requires count { IfSome items.now (λ items. length items < 2 ^ 16) }
    requires short { IfSome items.now (All T.IsShort) }
    ensures adds { Adds out.old out.new (option_bytes (list_bytes T.spelling) items.now) result }
    ensures typed { OnOk result (IfSome items.now (AllByRecursion T.IsTyped)) }
{
    match items {
        Some(items) => {
            put_switch(out, true)?;
            put_list(out, items)
        }
        None => put_switch(out, false),
    }
}

/// A list with so few and so many items, where one is given.
#[tactic(auto, unfolding(crate::specs::Reader::option_at))]
fn read_given_list<T: Field>(
    alloc: Global,
    bytes: &[u8],
    at: usize,
    least: u16,
    most: u16,
) -> Result<(Option<List<T>>, usize), CommandEnd>
    ensures { Gives result (option_at (list_at least most T.reading) bytes.now at) }
{
    let (given, at) = read_switch(bytes, at)?;
    if !given {
        return Ok((None, at));
    }
    let (items, at) = read_list(alloc, bytes, at, least, most)?;
    Ok((Some(items), at))
}

/// Puts a change of a configuration at the end.
#[tactic(auto, unfolding(crate::specs::Spelling::practice_change_bytes))]
pub(crate) fn put_practice_change(out: &mut Vec<u8>, change: &PracticeChange) -> Result<(), Memory>
    requires { IsChange change.now }
    ensures adds { Adds out.old out.new (practice_change_bytes change.now) result }
    ensures typed { OnOk result (IsTypedChange change.now) }
{
    put_given_list(out, &change.blocked_dates)?;
    put_given_list(out, &change.blocked_windows)?;
    put_given_list(out, &change.blocking_alarms)?;
    put_given_list(out, &change.outcome_alarms)
}

/// A change of a configuration.
#[tactic(auto, unfolding(crate::specs::Reading::practice_change_at))]
fn read_practice_change(
    alloc: Global,
    bytes: &[u8],
    at: usize,
) -> Result<(PracticeChange, usize), CommandEnd>
    ensures { Gives result (practice_change_at bytes.now at) }
{
    let (blocked_dates, at) = read_given_list(alloc, bytes, at, 0, 15)?;
    let (blocked_windows, at) = read_given_list(alloc, bytes, at, 0, 15)?;
    let (blocking_alarms, at) = read_given_list(alloc, bytes, at, 0, 4)?;
    let (outcome_alarms, at) = read_given_list(alloc, bytes, at, 1, 4)?;
    let change = PracticeChange {
        blocked_dates,
        blocked_windows,
        blocking_alarms,
        outcome_alarms,
    };
    Ok((change, at))
}

/// The fields of a new configuration.
#[tactic(auto, unfolding(crate::specs::Reading::create_practice_run_configuration_at))]
pub(crate) fn read_create_practice_run_configuration(
    alloc: Global,
    bytes: &[u8],
    at: usize,
) -> Result<(Op, usize), CommandEnd>
    ensures { Gives result (create_practice_run_configuration_at bytes.now at) }
{
    let (resource, at) = read_resource(bytes, at)?;
    let (config, at) = read_practice_config(alloc, bytes, at)?;
    Ok((Op::CreatePracticeRunConfiguration { resource, config }, at))
}

/// The fields of a configuration's update.
#[tactic(auto, unfolding(crate::specs::Reading::update_practice_run_configuration_at))]
pub(crate) fn read_update_practice_run_configuration(
    alloc: Global,
    bytes: &[u8],
    at: usize,
) -> Result<(Op, usize), CommandEnd>
    ensures { Gives result (update_practice_run_configuration_at bytes.now at) }
{
    let (resource, at) = read_resource(bytes, at)?;
    let (change, at) = read_practice_change(alloc, bytes, at)?;
    Ok((Op::UpdatePracticeRunConfiguration { resource, change }, at))
}

/// Puts the fields of a new practice run at the end.
pub(crate) fn put_start_practice_run(
    out: &mut Vec<u8>,
    resource: ResourceId,
    away_from: &ZoneName,
    comment: &Text,
) -> Result<(), Memory>
    requires { IsComment comment.now }
    ensures adds { Adds out.old out.new
        (resource_bytes resource ++ text_bytes away_from.now ++ text_bytes comment.now) result }
    ensures typed { OnOk result (IsTypedResource resource × IsTypedZone away_from.now × IsUtf8 comment.now) }
{
    put_resource(out, resource)?;
    put_zone(out, away_from)?;
    put_text(out, comment)
}

/// The fields of a new practice run.
#[tactic(auto, unfolding(crate::specs::Reading::start_practice_run_at))]
pub(crate) fn read_start_practice_run(
    alloc: Global,
    bytes: &[u8],
    at: usize,
) -> Result<(Op, usize), CommandEnd>
    ensures { Gives result (start_practice_run_at bytes.now at) }
{
    let (resource, at) = read_resource(bytes, at)?;
    let (away_from, at) = read_zone(alloc, bytes, at)?;
    let (comment, at) = read_text(alloc, bytes, at, 0, 128)?;
    let op = Op::StartPracticeRun {
        resource,
        away_from,
        comment,
    };
    Ok((op, at))
}

/// An alarm, and whether it is red.
#[tactic(auto, unfolding(crate::specs::Reading::set_alarm_state_at))]
pub(crate) fn read_set_alarm_state(
    alloc: Global,
    bytes: &[u8],
    at: usize,
) -> Result<(Op, usize), CommandEnd>
    ensures { Gives result (set_alarm_state_at bytes.now at) }
{
    let (alarm, at) = read_text(alloc, bytes, at, 1, 64)?;
    let (red, at) = read_switch(bytes, at)?;
    Ok((Op::SetAlarmState { alarm, red }, at))
}
