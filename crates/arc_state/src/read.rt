//! What is told of the parts that are kept, and the operations that only tell.
ghost use Rattle.std.specs.Prelude.{◌≡◌, IfOk};
ghost use Rattle.arc_plain.specs.Reads.{get_routing_control_state, list_routing_controls, list_safety_rules, list_zonal_shifts};
ghost use Rattle.arc_state.specs.Reading.{Answers, read_of};
ghost use Rattle.arc_state.specs.Standing.{AreTimely, Tells};

use crate::ends::{not_found, refused};
use crate::listing::listed;
use crate::parts::Parts;
use crate::shown;
use arc_bytes::Memory;
use arc_data::{Body, ControlId, List, Named, Op, PanelId, Reply, ResourceId, Status};
use std::alloc::Global;

/// An operation that changes nothing but list time.
#[derive(Clone, Copy)]
pub enum ReadOp {
    /// Lists the controls of one panel, or of all.
    ListRoutingControls {
        panel: Option<PanelId>,
    },
    /// Tells whether a control is On.
    GetRoutingControlState {
        control: ControlId,
    },
    /// Lists the safety rules of a panel.
    ListSafetyRules {
        panel: PanelId,
    },
    /// Tells what is kept of a resource, and which shift moves its traffic away.
    GetManagedResource {
        resource: ResourceId,
    },
    /// Lists the managed resources.
    ListManagedResources,
    /// Lists shifts and practice runs, those of one resource and one status or of all.
    ListZonalShifts {
        resource: Option<ResourceId>,
        status: Option<Status>,
    },
}

impl ReadOp {
    /// The read operation that an operation is, and `None` for every other one.
    pub fn of(op: &Op) -> Option<ReadOp>
        ensures { result ≡ read_of op.now }
    {
        match op {
            Op::ListRoutingControls { panel } => Some(ReadOp::ListRoutingControls {
                panel: *panel,
            }),
            Op::GetRoutingControlState { control } => Some(ReadOp::GetRoutingControlState {
                control: *control,
            }),
            Op::ListSafetyRules { panel } => Some(ReadOp::ListSafetyRules { panel: *panel }),
            Op::GetManagedResource { resource } => Some(ReadOp::GetManagedResource {
                resource: *resource,
            }),
            Op::ListManagedResources => Some(ReadOp::ListManagedResources),
            Op::ListZonalShifts { resource, status } => Some(ReadOp::ListZonalShifts {
                resource: *resource,
                status: *status,
            }),
            _ => None,
        }
    }
}

/// Lists the controls of one panel, or of all.
#[tactic(auto, unfolding(arc_plain::specs::Reads::list_routing_controls))]
pub(crate) fn list_routing_controls(
    alloc: Global,
    parts: &Parts,
    panel: Option<PanelId>,
) -> Result<Reply, Memory>
    ensures { IfOk result (λ reply. Tells (λ plain. list_routing_controls plain panel) parts.now reply) }
{
    match parts.controls.panels.list(alloc, panel) {
        Ok(items) => Ok(Reply::Done(Body::Controls { items })),
        Err(end) => refused(end),
    }
}

/// Whether a control is On.
#[tactic(auto, unfolding(arc_plain::specs::Reads::get_routing_control_state))]
pub(crate) fn get_routing_control_state(
    alloc: Global,
    parts: &Parts,
    control: ControlId,
) -> Result<Reply, Memory>
    ensures { IfOk result (λ reply. Tells (λ plain. get_routing_control_state plain control) parts.now reply) }
{
    let panels = &parts.controls.panels;
    match panels.name_of(control) {
        Some(name) => Ok(Reply::Done(Body::ControlState {
            control,
            name: name.copy(alloc)?,
            on: panels.states().is_on(control),
        })),
        None => Ok(not_found(Named::Control(control))),
    }
}

/// Lists the safety rules of a panel.
#[tactic(auto, unfolding(arc_plain::specs::Reads::list_safety_rules))]
pub(crate) fn list_safety_rules(
    alloc: Global,
    parts: &Parts,
    panel: PanelId,
) -> Result<Reply, Memory>
    ensures { IfOk result (λ reply. Tells (λ plain. list_safety_rules plain panel) parts.now reply) }
{
    if !parts.controls.panels.has(panel) {
        return Ok(not_found(Named::Panel(panel)));
    }
    let items = parts.controls.rules.in_panel(alloc, panel)?;
    Ok(Reply::Done(Body::Rules { items }))
}

/// Lists shifts and practice runs, those of one resource and one status or of all.
#[tactic(auto, unfolding(arc_plain::specs::Reads::list_zonal_shifts))]
pub(crate) fn list_zonal_shifts(
    alloc: Global,
    parts: &Parts,
    resource: Option<ResourceId>,
    status: Option<Status>,
) -> Result<Reply, Memory>
    requires { AreTimely parts.now }
    ensures { IfOk result (λ reply. Tells (λ plain. list_zonal_shifts plain resource status) parts.now reply) }
{
    if let Some(id) = resource {
        if parts.resources.name_of(id).is_none() {
            return Ok(not_found(Named::Resource(id)));
        }
    }
    let shifts = parts.shifts.list();
    let runs = parts.practices.list();
    let items = List::of(listed(alloc, shifts, runs, parts.time, resource, status)?);
    Ok(Reply::Done(Body::Shifts { items }))
}

/// Answers a read operation.
pub(crate) fn answer(alloc: Global, parts: &Parts, op: &ReadOp) -> Result<Reply, Memory>
    requires { AreTimely parts.now }
    ensures { IfOk result (λ reply. Answers op.now parts.now reply) }
{
    match op {
        ReadOp::ListRoutingControls { panel } => list_routing_controls(alloc, parts, *panel),
        ReadOp::GetRoutingControlState { control } => {
            get_routing_control_state(alloc, parts, *control)
        }
        ReadOp::ListSafetyRules { panel } => list_safety_rules(alloc, parts, *panel),
        ReadOp::GetManagedResource { resource } => {
            shown::get_managed_resource(alloc, parts, *resource)
        }
        ReadOp::ListManagedResources => shown::list_managed_resources(alloc, parts),
        ReadOp::ListZonalShifts { resource, status } => {
            list_zonal_shifts(alloc, parts, *resource, *status)
        }
    }
}
