//! Copies of operations.
ghost use Rattle.std.specs.Prelude.{◌≡◌, IfOk};

use crate::copies::copy_text;
use crate::{List, Op, ResourceId, ShiftId, Text, ZoneName};
use arc_bytes::Memory;
use std::alloc::Global;

impl Op {
    /// The same operation again.
    pub fn copy(&self, alloc: Global) -> Result<Op, Memory>
        ensures { IfOk result (λ op. op ≡ self.now) }
    {
        match self {
            Op::CreateControlPanel { name } => Ok(Op::CreateControlPanel {
                name: name.copy(alloc)?,
            }),
            Op::DeleteControlPanel { panel } => Ok(Op::DeleteControlPanel { panel: *panel }),
            Op::CreateRoutingControl { name, panel } => Ok(Op::CreateRoutingControl {
                name: name.copy(alloc)?,
                panel: *panel,
            }),
            Op::DeleteRoutingControl { control } => {
                Ok(Op::DeleteRoutingControl { control: *control })
            }
            Op::ListRoutingControls { panel } => Ok(Op::ListRoutingControls { panel: *panel }),
            Op::GetRoutingControlState { control } => {
                Ok(Op::GetRoutingControlState { control: *control })
            }
            Op::UpdateRoutingControlState { batch } => Ok(Op::UpdateRoutingControlState {
                batch: batch.copy(alloc)?,
            }),
            Op::UpdateRoutingControlStates { batch } => Ok(Op::UpdateRoutingControlStates {
                batch: batch.copy(alloc)?,
            }),
            Op::CreateSafetyRule { spec } => Ok(Op::CreateSafetyRule {
                spec: spec.copy(alloc)?,
            }),
            Op::UpdateSafetyRule {
                gating,
                rule,
                name,
                wait_ms,
            } => Ok(Op::UpdateSafetyRule {
                gating: *gating,
                rule: *rule,
                name: name.copy(alloc)?,
                wait_ms: *wait_ms,
            }),
            Op::DeleteSafetyRule { rule } => Ok(Op::DeleteSafetyRule { rule: *rule }),
            Op::ListSafetyRules { panel } => Ok(Op::ListSafetyRules { panel: *panel }),
            Op::RegisterManagedResource { name, zones } => Ok(Op::RegisterManagedResource {
                name: name.copy(alloc)?,
                zones: zones.copy(alloc)?,
            }),
            Op::GetManagedResource { resource } => Ok(Op::GetManagedResource {
                resource: *resource,
            }),
            Op::ListManagedResources => Ok(Op::ListManagedResources),
            Op::StartZonalShift {
                resource,
                away_from,
                expires_min,
                comment,
            } => Ok(Op::StartZonalShift {
                resource: *resource,
                away_from: *away_from,
                expires_min: *expires_min,
                comment: comment.copy(alloc)?,
            }),
            Op::UpdateZonalShift {
                shift,
                comment,
                expires_min,
            } => Ok(Op::UpdateZonalShift {
                shift: *shift,
                comment: copy_text(alloc, comment)?,
                expires_min: *expires_min,
            }),
            Op::CancelZonalShift { shift } => Ok(Op::CancelZonalShift { shift: *shift }),
            Op::ListZonalShifts { resource, status } => Ok(Op::ListZonalShifts {
                resource: *resource,
                status: *status,
            }),
            Op::CreatePracticeRunConfiguration { resource, config } => {
                Ok(Op::CreatePracticeRunConfiguration {
                    resource: *resource,
                    config: config.copy(alloc)?,
                })
            }
            Op::UpdatePracticeRunConfiguration { resource, change } => {
                Ok(Op::UpdatePracticeRunConfiguration {
                    resource: *resource,
                    change: change.copy(alloc)?,
                })
            }
            Op::DeletePracticeRunConfiguration { resource } => {
                Ok(Op::DeletePracticeRunConfiguration {
                    resource: *resource,
                })
            }
            Op::StartPracticeRun {
                resource,
                away_from,
                comment,
            } => Ok(Op::StartPracticeRun {
                resource: *resource,
                away_from: *away_from,
                comment: comment.copy(alloc)?,
            }),
            Op::CancelPracticeRun { shift } => Ok(Op::CancelPracticeRun { shift: *shift }),
            Op::UpdateZonalAutoshiftConfiguration { resource, enabled } => {
                Ok(Op::UpdateZonalAutoshiftConfiguration {
                    resource: *resource,
                    enabled: *enabled,
                })
            }
            Op::StartAutoshift { away_from } => Ok(Op::StartAutoshift {
                away_from: *away_from,
            }),
            Op::EndAutoshift { away_from } => Ok(Op::EndAutoshift {
                away_from: *away_from,
            }),
            Op::SetAlarmState { alarm, red } => Ok(Op::SetAlarmState {
                alarm: alarm.copy(alloc)?,
                red: *red,
            }),
        }
    }
}
