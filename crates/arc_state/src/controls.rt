//! What the operations on panels and controls do to the parts that are kept.
ghost use Rattle.std.specs.Prelude.{◌≡◌, IfOk, OnErr};
ghost use Rattle.arc_plain.specs.Controls.{create_control_panel, create_routing_control, delete_control_panel, delete_routing_control, update_states};
ghost use Rattle.arc_state.specs.Standing.{AreReady, Does};

use crate::ends::{not_found, refused};
use crate::parts::Parts;
use arc_batch::commit;
use arc_bytes::Memory;
use arc_data::{Batch, Body, ControlId, Named, PanelId, Refusal, Reply, Text};
use std::alloc::Global;

/// Makes a panel.
#[tactic(auto, unfolding(arc_plain::specs::Controls::create_control_panel))]
pub(crate) fn create_control_panel(
    alloc: Global,
    parts: &mut Parts,
    name: &Text,
) -> Result<Reply, Memory>
    requires { AreReady parts.old }
    ensures does { IfOk result (λ reply. Does (λ plain. create_control_panel plain name.now) parts.old reply parts.new) }
    ensures unchanged { OnErr result (parts.new ≡ parts.old) }
{
    let answered = name.copy(alloc)?;
    match parts.controls.panels.add_panel(alloc, name) {
        Ok(panel) => Ok(Reply::Done(Body::Panel {
            panel,
            name: answered,
        })),
        Err(end) => refused(end),
    }
}

/// Removes a panel.
#[tactic(auto, unfolding(arc_plain::specs::Controls::delete_control_panel))]
pub(crate) fn delete_control_panel(parts: &mut Parts, panel: PanelId) -> Result<Reply, Memory>
    ensures does { IfOk result (λ reply. Does (λ plain. delete_control_panel plain panel) parts.old reply parts.new) }
    ensures unchanged { OnErr result (parts.new ≡ parts.old) }
{
    match parts.controls.panels.remove_panel(panel) {
        Ok(()) => Ok(Reply::Done(Body::Empty)),
        Err(end) => refused(end),
    }
}

/// Makes a control in a panel, Off.
#[tactic(auto, unfolding(arc_plain::specs::Controls::create_routing_control))]
pub(crate) fn create_routing_control(
    alloc: Global,
    parts: &mut Parts,
    name: &Text,
    panel: PanelId,
) -> Result<Reply, Memory>
    requires { AreReady parts.old }
    ensures does { IfOk result (λ reply.
        Does (λ plain. create_routing_control plain name.now panel) parts.old reply parts.new) }
    ensures unchanged { OnErr result (parts.new ≡ parts.old) }
{
    let answered = name.copy(alloc)?;
    match parts.controls.panels.add_control(alloc, name, panel) {
        Ok(control) => Ok(Reply::Done(Body::Control {
            panel,
            name: answered,
            control,
        })),
        Err(end) => refused(end),
    }
}

/// Removes a control that no safety rule names.
#[tactic(auto, unfolding(arc_plain::specs::Controls::delete_routing_control))]
pub(crate) fn delete_routing_control(parts: &mut Parts, control: ControlId) -> Result<Reply, Memory>
    ensures does { IfOk result (λ reply. Does (λ plain. delete_routing_control plain control) parts.old reply parts.new) }
    ensures unchanged { OnErr result (parts.new ≡ parts.old) }
{
    if !parts.controls.panels.states().has(control) {
        return Ok(not_found(Named::Control(control)));
    }
    if let Some(rule) = parts.controls.rules.user_of(control) {
        return Ok(Reply::Refused(Refusal::InUse {
            id: Named::Rule(rule),
        }));
    }
    match parts.controls.panels.remove_control(control) {
        Ok(()) => Ok(Reply::Done(Body::Empty)),
        Err(end) => refused(end),
    }
}

/// Makes the changes of a batch at list time, all of them or none.
#[tactic(auto, unfolding(arc_plain::specs::Controls::update_states))]
pub(crate) fn update_states(
    alloc: Global,
    parts: &mut Parts,
    batch: &Batch,
) -> Result<Reply, Memory>
    requires { AreReady parts.old }
    ensures does { IfOk result (λ reply. Does (λ plain. update_states plain batch.now) parts.old reply parts.new) }
    ensures unchanged { OnErr result (parts.new ≡ parts.old) }
{
    commit(alloc, &mut parts.controls, batch, parts.time)
}
