//! Exact equality of operations.
ghost use Rattle.std.specs.Prelude.{◌≡◌, ◌↔◌, IsTrue};

use crate::{Equals, Op};

impl Equals for Op {
    fn equals(&self, other: &Op) -> bool {
        match (self, other) {
            (Op::CreateControlPanel { name: a }, Op::CreateControlPanel { name: b }) => a.equals(b),
            (Op::DeleteControlPanel { panel: a }, Op::DeleteControlPanel { panel: b }) => a.equals(
                b,
            ),
            (
                Op::CreateRoutingControl { name: a, panel: p },
                Op::CreateRoutingControl { name: b, panel: q },
            ) => a.equals(b) && p.equals(q),
            (Op::DeleteRoutingControl { control: a }, Op::DeleteRoutingControl { control: b }) => {
                a.equals(b)
            }
            (Op::ListRoutingControls { panel: a }, Op::ListRoutingControls { panel: b }) => {
                a.equals(b)
            }
            (
                Op::GetRoutingControlState { control: a },
                Op::GetRoutingControlState { control: b },
            ) => a.equals(b),
            (
                Op::UpdateRoutingControlState { batch: a },
                Op::UpdateRoutingControlState { batch: b },
            ) => a.equals(b),
            (
                Op::UpdateRoutingControlStates { batch: a },
                Op::UpdateRoutingControlStates { batch: b },
            ) => a.equals(b),
            (Op::CreateSafetyRule { spec: a }, Op::CreateSafetyRule { spec: b }) => a.equals(b),
            (
                Op::UpdateSafetyRule {
                    gating,
                    rule,
                    name,
                    wait_ms,
                },
                Op::UpdateSafetyRule {
                    gating: g,
                    rule: r,
                    name: n,
                    wait_ms: w,
                },
            ) => gating == g && rule.equals(r) && name.equals(n) && wait_ms == w,
            (Op::DeleteSafetyRule { rule: a }, Op::DeleteSafetyRule { rule: b }) => a.equals(b),
            (Op::ListSafetyRules { panel: a }, Op::ListSafetyRules { panel: b }) => a.equals(b),
            (
                Op::RegisterManagedResource { name: a, zones: y },
                Op::RegisterManagedResource { name: b, zones: z },
            ) => a.equals(b) && y.equals(z),
            (Op::GetManagedResource { resource: a }, Op::GetManagedResource { resource: b }) => {
                a.equals(b)
            }
            (Op::ListManagedResources, Op::ListManagedResources) => true,
            (
                Op::StartZonalShift {
                    resource,
                    away_from,
                    expires_min,
                    comment,
                },
                Op::StartZonalShift {
                    resource: r,
                    away_from: z,
                    expires_min: m,
                    comment: c,
                },
            ) => {
                resource.equals(r) && away_from.equals(z) && expires_min == m && comment.equals(c)
            }
            (
                Op::UpdateZonalShift {
                    shift: a,
                    comment: c,
                    expires_min: m,
                },
                Op::UpdateZonalShift {
                    shift: b,
                    comment: d,
                    expires_min: n,
                },
            ) => a.equals(b) && c.equals(d) && m.equals(n),
            (Op::CancelZonalShift { shift: a }, Op::CancelZonalShift { shift: b }) => a.equals(b),
            (
                Op::ListZonalShifts {
                    resource: a,
                    status: s,
                },
                Op::ListZonalShifts {
                    resource: b,
                    status: t,
                },
            ) => a.equals(b) && s.equals(t),
            (
                Op::CreatePracticeRunConfiguration {
                    resource: a,
                    config: c,
                },
                Op::CreatePracticeRunConfiguration {
                    resource: b,
                    config: d,
                },
            ) => a.equals(b) && c.equals(d),
            (
                Op::UpdatePracticeRunConfiguration {
                    resource: a,
                    change: c,
                },
                Op::UpdatePracticeRunConfiguration {
                    resource: b,
                    change: d,
                },
            ) => a.equals(b) && c.equals(d),
            (
                Op::DeletePracticeRunConfiguration { resource: a },
                Op::DeletePracticeRunConfiguration { resource: b },
            ) => a.equals(b),
            (
                Op::StartPracticeRun {
                    resource: a,
                    away_from: y,
                    comment: c,
                },
                Op::StartPracticeRun {
                    resource: b,
                    away_from: z,
                    comment: d,
                },
            ) => a.equals(b) && y.equals(z) && c.equals(d),
            (Op::CancelPracticeRun { shift: a }, Op::CancelPracticeRun { shift: b }) => a.equals(b),
            (
                Op::UpdateZonalAutoshiftConfiguration {
                    resource: a,
                    enabled: e,
                },
                Op::UpdateZonalAutoshiftConfiguration {
                    resource: b,
                    enabled: f,
                },
            ) => a.equals(b) && e == f,
            (Op::StartAutoshift { away_from: a }, Op::StartAutoshift { away_from: b }) => a.equals(
                b,
            ),
            (Op::EndAutoshift { away_from: a }, Op::EndAutoshift { away_from: b }) => a.equals(b),
            (Op::SetAlarmState { alarm: a, red: e }, Op::SetAlarmState { alarm: b, red: f }) =>
                a.equals(b) && e == f,
            _ => false,
        }
    }
}
