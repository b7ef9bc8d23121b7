//! What the operations on practice runs, autoshifts and alarms do to the parts that are kept.
ghost use Rattle.std.specs.Prelude.{◌≡◌, IfOk, OnErr, is_some};
ghost use Rattle.arc_plain.specs.PracticeRuns.{create_practice_configuration, delete_practice_configuration, end_autoshift, is_configured, set_alarm_state, update_autoshift_configuration, update_practice_configuration, yielding_on};
ghost use Rattle.arc_plain.specs.Practice.{pending_of};
ghost use Rattle.arc_plain.specs.Resources.{resource_of};
ghost use Rattle.arc_practice.specs.Kept.{HaveStarted};
ghost use Rattle.arc_state.specs.Standing.{AreReady, Does};

use crate::ends::{not_found, refused};
use crate::parts::Parts;
use arc_bytes::Memory;
use arc_data::{
    Body, Kind, Named, PracticeChange, PracticeConfig, Refusal, Reply, ResourceId, Text, ZoneName,
};
use arc_practice::Practices;
use arc_precedence::{autoshift_at, pending_of};
use arc_shift::Resources;
use std::alloc::Global;

/// Configures practice runs of a resource.
#[tactic(auto, unfolding(arc_plain::specs::PracticeRuns::create_practice_configuration))]
pub(crate) fn create_practice_configuration(
    alloc: Global,
    parts: &mut Parts,
    resource: ResourceId,
    config: &PracticeConfig,
) -> Result<Reply, Memory>
    ensures does { IfOk result (λ reply.
        Does (λ plain. create_practice_configuration plain resource config.now) parts.old reply parts.new) }
    ensures unchanged { OnErr result (parts.new ≡ parts.old) }
{
    if !is_kept(&parts.resources, resource) {
        return Ok(not_found(Named::Resource(resource)));
    }
    match parts.practices.configure(alloc, resource, config) {
        Ok(()) => Ok(Reply::Done(Body::Empty)),
        Err(end) => refused(end),
    }
}

/// Changes a resource's configuration of practice runs.
#[tactic(auto, unfolding(arc_plain::specs::PracticeRuns::update_practice_configuration))]
pub(crate) fn update_practice_configuration(
    alloc: Global,
    parts: &mut Parts,
    resource: ResourceId,
    change: &PracticeChange,
) -> Result<Reply, Memory>
    ensures does { IfOk result (λ reply.
        Does (λ plain. update_practice_configuration plain resource change.now) parts.old reply parts.new) }
    ensures unchanged { OnErr result (parts.new ≡ parts.old) }
{
    if !is_kept(&parts.resources, resource) {
        return Ok(not_found(Named::Resource(resource)));
    }
    match parts.practices.update(alloc, resource, change) {
        Ok(()) => Ok(Reply::Done(Body::Empty)),
        Err(end) => refused(end),
    }
}

/// Removes a resource's configuration, where none of its runs is pending and autoshift isn't enabled for it.
#[tactic(auto, unfolding(arc_plain::specs::PracticeRuns::delete_practice_configuration))]
pub(crate) fn delete_practice_configuration(
    parts: &mut Parts,
    resource: ResourceId,
) -> Result<Reply, Memory>
    ensures does { IfOk result (λ reply. Does (λ plain. delete_practice_configuration plain resource) parts.old reply parts.new) }
    ensures unchanged { OnErr result (parts.new ≡ parts.old) }
{
    let Some(enabled) = parts.resources.autoshift_of(resource) else {
        return Ok(not_found(Named::Resource(resource)));
    };
    if !is_configured(&parts.practices, resource) {
        return Ok(Reply::Refused(Refusal::NotConfigured { resource }));
    }
    if has_pending(&parts.practices, resource, parts.time) {
        return Ok(Reply::Refused(Refusal::Busy {
            by: Kind::PracticeRun,
        }));
    }
    if enabled {
        return Ok(Reply::Refused(Refusal::Enabled { resource }));
    }
    parts.practices.remove(resource);
    Ok(Reply::Done(Body::Empty))
}

/// Sets whether zones in autoshift move a resource's traffic away. Where one does then, its pending run is interrupted.
#[tactic(auto, unfolding(arc_plain::specs::PracticeRuns::update_autoshift_configuration))]
pub(crate) fn update_autoshift_configuration(
    parts: &mut Parts,
    resource: ResourceId,
    enabled: bool,
) -> Result<Reply, Memory>
    requires { AreReady parts.old }
    ensures does { IfOk result (λ reply.
        Does (λ plain. update_autoshift_configuration plain resource enabled) parts.old reply parts.new) }
    ensures unchanged { OnErr result (parts.new ≡ parts.old) }
{
    if !is_kept(&parts.resources, resource) {
        return Ok(not_found(Named::Resource(resource)));
    }
    if enabled && !is_configured(&parts.practices, resource) {
        return Ok(Reply::Refused(Refusal::NotConfigured { resource }));
    }
    match parts.resources.set_autoshift(resource, enabled) {
        Ok(()) => {
            yield_on(&mut parts.practices, &parts.resources, resource, parts.time);
            Ok(Reply::Done(Body::Autoshift { resource, enabled }))
        }
        Err(end) => refused(end),
    }
}

/// Interrupts the pending run of a resource where an autoshift applies to it.
fn yield_on(practices: &mut Practices, resources: &Resources, resource: ResourceId, now: u64)
    requires { HaveStarted practices.old.runs now }
    ensures { practices.new ≡ yielding_on practices.old resources.now resource now }
{
    if autoshift_at(resources, resource).is_some() {
        practices.interrupt(resource, now);
    }
}

/// Takes a zone out of autoshift.
#[tactic(auto, unfolding(arc_plain::specs::PracticeRuns::end_autoshift))]
pub(crate) fn end_autoshift(parts: &mut Parts, zone: ZoneName) -> Result<Reply, Memory>
    ensures does { IfOk result (λ reply. Does (λ plain. end_autoshift plain zone) parts.old reply parts.new) }
    ensures unchanged { OnErr result (parts.new ≡ parts.old) }
{
    match parts.resources.end_autoshift(zone) {
        Ok(()) => Ok(Reply::Done(Body::Empty)),
        Err(end) => refused(end),
    }
}

/// Sets whether an alarm is red.
#[tactic(auto, unfolding(arc_plain::specs::PracticeRuns::set_alarm_state))]
pub(crate) fn set_alarm_state(
    alloc: Global,
    parts: &mut Parts,
    alarm: &Text,
    red: bool,
) -> Result<Reply, Memory>
    requires { AreReady parts.old }
    ensures does { IfOk result (λ reply. Does (λ plain. set_alarm_state plain alarm.now red) parts.old reply parts.new) }
    ensures unchanged { OnErr result (parts.new ≡ parts.old) }
{
    match parts.practices.alarm(alloc, alarm, red, parts.time) {
        Ok(()) => Ok(Reply::Done(Body::Empty)),
        Err(end) => refused(end),
    }
}

/// Whether a resource is kept.
fn is_kept(resources: &Resources, resource: ResourceId) -> bool
    ensures { result ≡ is_some (resource_of resources.now resource) }
{
    resources.autoshift_of(resource).is_some()
}

/// Whether a resource has a configuration.
pub(crate) fn is_configured(practices: &Practices, resource: ResourceId) -> bool
    ensures { result ≡ is_configured practices.now resource }
{
    practices.config_of(resource).is_some()
}

/// Whether a run of a resource is pending.
fn has_pending(practices: &Practices, resource: ResourceId, now: u64) -> bool
    ensures { result ≡ is_some (pending_of practices.now.runs resource now) }
{
    pending_of(practices.list(), resource, now).is_some()
}
