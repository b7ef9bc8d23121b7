//! What is told of managed resources, of shifts and of practice runs.
ghost use Rattle.std.specs.Prelude.{◌≡◌, IfOk};
ghost use Rattle.arc_plain.specs.Precedence.{applied_to};
ghost use Rattle.arc_plain.specs.Reads.{get_managed_resource, list_managed_resources};
ghost use Rattle.arc_state.specs.Standing.{Tells};

use crate::ends::not_found;
use crate::parts::Parts;
use arc_bytes::Memory;
use arc_data::{Body, Kind, List, Named, Reply, ResourceId, ZoneName};
use arc_precedence::{ShiftsView, applied_shift};
use std::alloc::Global;

/// Tells what is kept of a resource, and which shift is applied to it.
#[tactic(auto, unfolding(arc_plain::specs::Reads::get_managed_resource))]
pub(crate) fn get_managed_resource(
    alloc: Global,
    parts: &Parts,
    resource: ResourceId,
) -> Result<Reply, Memory>
    ensures { IfOk result (λ reply. Tells (λ plain. get_managed_resource plain resource) parts.now reply) }
{
    let Some(name) = parts.resources.name_of(resource) else {
        return Ok(not_found(Named::Resource(resource)));
    };
    let Some(zones) = parts.resources.zones_of(resource) else {
        return Ok(not_found(Named::Resource(resource)));
    };
    let Some(autoshift) = parts.resources.autoshift_of(resource) else {
        return Ok(not_found(Named::Resource(resource)));
    };
    Ok(Reply::Done(Body::ResourceDetail {
        applied: applied_of(parts, resource),
        zones: List::of(Vec::from_slice(alloc, zones)?),
        name: name.copy(alloc)?,
        resource,
        autoshift,
    }))
}

/// The shift that is applied to a resource now.
pub(crate) fn applied_of(parts: &Parts, resource: ResourceId) -> Option<(Kind, ZoneName)>
    ensures { result ≡ applied_to parts.now.shifts parts.now.practices parts.now.resources resource parts.now.time }
{
    let view = ShiftsView {
        shifts: &parts.shifts,
        practices: &parts.practices,
        resources: &parts.resources,
    };
    match applied_shift(&view, resource, parts.time) {
        Some(applied) => Some((applied.kind, applied.zone)),
        None => None,
    }
}

/// Lists the managed resources.
#[tactic(auto, unfolding(arc_plain::specs::Reads::list_managed_resources))]
pub(crate) fn list_managed_resources(alloc: Global, parts: &Parts) -> Result<Reply, Memory>
    ensures { IfOk result (λ reply. Tells (λ plain. list_managed_resources plain) parts.now reply) }
{
    let items = parts.resources.list(alloc)?;
    Ok(Reply::Done(Body::Resources { items }))
}
