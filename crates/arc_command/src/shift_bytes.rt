//! The bytes of operations on resources and zonal shifts.
ghost use Rattle.std.specs.Prelude.{◌≡◌, ◌≤◌, ◌++◌, IfSome, OnOk, length};
ghost use Rattle.std.specs.List.{AllByRecursion};
ghost use Rattle.std.specs.Str.{IsUtf8};
ghost use Rattle.arc_command.specs.Reader.{option_at, list_at};
ghost use Rattle.arc_command.specs.Reading.{Gives, resource_at, comment_at, minutes_at, status_at, new_zone_at, register_managed_resource_at, start_zonal_shift_at, update_zonal_shift_at, list_zonal_shifts_at, update_zonal_autoshift_configuration_at};
ghost use Rattle.arc_command.specs.Spelling.{text_bytes, texts_bytes, option_bytes, resource_bytes, shift_bytes, long_bytes, status_bytes};
ghost use Rattle.arc_command.specs.Typed.{IsTypedResource, IsTypedShift, IsTypedZone};
ghost use Rattle.arc_data.specs.Valid.{IsName, IsComment, AreMinutes, AreZones};
ghost use Rattle.arc_bytes.specs.Adding.{Adds};

use crate::field::{put_list, put_text, read_list, read_text};
use crate::fields::{
    put_resource, put_shift, put_status, put_switch, put_zone, read_minutes, read_resource,
    read_shift, read_status, read_switch, read_zone,
};
use crate::{CommandEnd, List, Op, ResourceId, ShiftId, Status, Text, ZoneName};
use arc_bytes::{Memory, put_u32};
use std::alloc::Global;

/// Puts a resource's identifier at the end, where one is given.
#[tactic(auto, unfolding(crate::specs::Spelling::option_bytes))]
fn put_given_resource(out: &mut Vec<u8>, resource: &Option<ResourceId>) -> Result<(), Memory>
    ensures adds { Adds out.old out.new (option_bytes resource_bytes resource.now) result }
    ensures typed { OnOk result (IfSome resource.now IsTypedResource) }
{
    match resource {
        Some(resource) => {
            put_switch(out, true)?;
            put_resource(out, *resource)
        }
        None => put_switch(out, false),
    }
}

/// A resource's identifier, where one is given.
#[tactic(auto, unfolding(crate::specs::Reader::option_at))]
fn read_given_resource(bytes: &[u8], at: usize) -> Result<(Option<ResourceId>, usize), CommandEnd>
    ensures { Gives result (option_at resource_at bytes.now at) }
{
    let (given, at) = read_switch(bytes, at)?;
    if !given {
        return Ok((None, at));
    }
    let (resource, at) = read_resource(bytes, at)?;
    Ok((Some(resource), at))
}

/// Puts a comment at the end, where one is given.
#[tactic(auto, unfolding(crate::specs::Spelling::option_bytes))]
fn put_given_comment(out: &mut Vec<u8>, comment: &Option<Text>) -> Result<(), Memory>
    requires { IfSome comment.now IsComment }
    ensures adds { Adds out.old out.new (option_bytes text_bytes comment.now) result }
    ensures typed { OnOk result (IfSome comment.now IsUtf8) }
{
    match comment {
        Some(comment) => {
            put_switch(out, true)?;
            put_text(out, comment)
        }
        None => put_switch(out, false),
    }
}

/// A comment, where one is given.
#[tactic(auto, unfolding(crate::specs::Reader::option_at))]
fn read_given_comment(
    alloc: Global,
    bytes: &[u8],
    at: usize,
) -> Result<(Option<Text>, usize), CommandEnd>
    ensures { Gives result (option_at comment_at bytes.now at) }
{
    let (given, at) = read_switch(bytes, at)?;
    if !given {
        return Ok((None, at));
    }
    let (comment, at) = read_text(alloc, bytes, at, 0, 128)?;
    Ok((Some(comment), at))
}

/// Puts the minutes of a shift at the end, where they are given.
#[tactic(auto, unfolding(crate::specs::Spelling::option_bytes))]
fn put_given_minutes(out: &mut Vec<u8>, minutes: &Option<u32>) -> Result<(), Memory>
    ensures { Adds out.old out.new (option_bytes long_bytes minutes.now) result }
{
    match minutes {
        Some(minutes) => {
            put_switch(out, true)?;
            put_u32(out, *minutes)
        }
        None => put_switch(out, false),
    }
}

/// The minutes of a shift, where they are given.
#[tactic(auto, unfolding(crate::specs::Reader::option_at))]
fn read_given_minutes(bytes: &[u8], at: usize) -> Result<(Option<u32>, usize), CommandEnd>
    ensures { Gives result (option_at minutes_at bytes.now at) }
{
    let (given, at) = read_switch(bytes, at)?;
    if !given {
        return Ok((None, at));
    }
    let (minutes, at) = read_minutes(bytes, at)?;
    Ok((Some(minutes), at))
}

/// Puts the status of a shift at the end, where one is given.
#[tactic(auto, unfolding(crate::specs::Spelling::option_bytes))]
fn put_given_status(out: &mut Vec<u8>, status: &Option<Status>) -> Result<(), Memory>
    ensures { Adds out.old out.new (option_bytes status_bytes status.now) result }
{
    match status {
        Some(status) => {
            put_switch(out, true)?;
            put_status(out, *status)
        }
        None => put_switch(out, false),
    }
}

/// The status of a shift, where one is given.
#[tactic(auto, unfolding(crate::specs::Reader::option_at))]
fn read_given_status(bytes: &[u8], at: usize) -> Result<(Option<Status>, usize), CommandEnd>
    ensures { Gives result (option_at status_at bytes.now at) }
{
    let (given, at) = read_switch(bytes, at)?;
    if !given {
        return Ok((None, at));
    }
    let (status, at) = read_status(bytes, at)?;
    Ok((Some(status), at))
}

/// Puts the fields of a new resource at the end.
pub(crate) fn put_register_managed_resource(
    out: &mut Vec<u8>,
    name: &Text,
    zones: &List<ZoneName>,
) -> Result<(), Memory>
    requires name { IsName name.now }
    requires zones { AreZones zones.now }
    ensures adds { Adds out.old out.new (text_bytes name.now ++ texts_bytes zones.now) result }
    ensures typed { OnOk result (IsUtf8 name.now × AllByRecursion IsTypedZone zones.now) }
{
    put_text(out, name)?;
    put_list(out, zones)
}

/// The fields of a new resource.
#[tactic(auto, unfolding(crate::specs::Reading::register_managed_resource_at))]
pub(crate) fn read_register_managed_resource(
    alloc: Global,
    bytes: &[u8],
    at: usize,
) -> Result<(Op, usize), CommandEnd>
    ensures { Gives result (register_managed_resource_at bytes.now at) }
{
    let (name, at) = read_text(alloc, bytes, at, 1, 64)?;
    let (zones, at) = read_list(alloc, bytes, at, 1, 6)?;
    Ok((Op::RegisterManagedResource { name, zones }, at))
}

/// Puts the fields of a new shift at the end.
pub(crate) fn put_start_zonal_shift(
    out: &mut Vec<u8>,
    resource: ResourceId,
    away_from: &ZoneName,
    minutes: u32,
    comment: &Text,
) -> Result<(), Memory>
    requires { IsComment comment.now }
    ensures adds { Adds out.old out.new
        (resource_bytes resource ++ text_bytes away_from.now ++ long_bytes minutes ++ text_bytes comment.now)
        result }
    ensures typed { OnOk result (IsTypedResource resource × IsTypedZone away_from.now × IsUtf8 comment.now) }
{
    put_resource(out, resource)?;
    put_zone(out, away_from)?;
    put_u32(out, minutes)?;
    put_text(out, comment)
}

/// The fields of a new shift.
#[tactic(auto, unfolding(crate::specs::Reading::start_zonal_shift_at))]
pub(crate) fn read_start_zonal_shift(
    alloc: Global,
    bytes: &[u8],
    at: usize,
) -> Result<(Op, usize), CommandEnd>
    ensures { Gives result (start_zonal_shift_at bytes.now at) }
{
    let (resource, at) = read_resource(bytes, at)?;
    let (away_from, at) = read_zone(alloc, bytes, at)?;
    let (expires_min, at) = read_minutes(bytes, at)?;
    let (comment, at) = read_text(alloc, bytes, at, 0, 128)?;
    let op = Op::StartZonalShift {
        resource,
        away_from,
        expires_min,
        comment,
    };
    Ok((op, at))
}

/// Puts the fields of a shift's update at the end.
pub(crate) fn put_update_zonal_shift(
    out: &mut Vec<u8>,
    shift: ShiftId,
    comment: &Option<Text>,
    minutes: &Option<u32>,
) -> Result<(), Memory>
    requires { IfSome comment.now IsComment }
    ensures adds { Adds out.old out.new
        (shift_bytes shift ++ option_bytes text_bytes comment.now ++ option_bytes long_bytes minutes.now) result }
    ensures typed { OnOk result (IsTypedShift shift × IfSome comment.now IsUtf8) }
{
    put_shift(out, shift)?;
    put_given_comment(out, comment)?;
    put_given_minutes(out, minutes)
}

/// The fields of a shift's update.
#[tactic(auto, unfolding(crate::specs::Reading::update_zonal_shift_at))]
pub(crate) fn read_update_zonal_shift(
    alloc: Global,
    bytes: &[u8],
    at: usize,
) -> Result<(Op, usize), CommandEnd>
    ensures { Gives result (update_zonal_shift_at bytes.now at) }
{
    let (shift, at) = read_shift(bytes, at)?;
    let (comment, at) = read_given_comment(alloc, bytes, at)?;
    let (expires_min, at) = read_given_minutes(bytes, at)?;
    let op = Op::UpdateZonalShift {
        shift,
        comment,
        expires_min,
    };
    Ok((op, at))
}

/// Puts at the end which shifts are listed.
pub(crate) fn put_list_zonal_shifts(
    out: &mut Vec<u8>,
    resource: &Option<ResourceId>,
    status: &Option<Status>,
) -> Result<(), Memory>
    ensures adds { Adds out.old out.new
        (option_bytes resource_bytes resource.now ++ option_bytes status_bytes status.now) result }
    ensures typed { OnOk result (IfSome resource.now IsTypedResource) }
{
    put_given_resource(out, resource)?;
    put_given_status(out, status)
}

/// Which shifts are listed.
#[tactic(auto, unfolding(crate::specs::Reading::list_zonal_shifts_at))]
pub(crate) fn read_list_zonal_shifts(bytes: &[u8], at: usize) -> Result<(Op, usize), CommandEnd>
    ensures { Gives result (list_zonal_shifts_at bytes.now at) }
{
    let (resource, at) = read_given_resource(bytes, at)?;
    let (status, at) = read_given_status(bytes, at)?;
    Ok((Op::ListZonalShifts { resource, status }, at))
}

/// Whether zones in autoshift move a resource's traffic away.
#[tactic(auto, unfolding(crate::specs::Reading::update_zonal_autoshift_configuration_at))]
pub(crate) fn read_update_zonal_autoshift_configuration(
    bytes: &[u8],
    at: usize,
) -> Result<(Op, usize), CommandEnd>
    ensures { Gives result (update_zonal_autoshift_configuration_at bytes.now at) }
{
    let (resource, at) = read_resource(bytes, at)?;
    let (enabled, at) = read_switch(bytes, at)?;
    Ok((
        Op::UpdateZonalAutoshiftConfiguration { resource, enabled },
        at,
    ))
}
