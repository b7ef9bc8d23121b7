//! The operations by their names.
ghost use Rattle.std.specs.Prelude.{◌≡◌, map};
ghost use Rattle.arc_json.specs.Operations.{beside, operation_of};

/// An operation, without what it is asked to do.
#[derive(Clone, Copy)]
pub(crate) enum Operation {
    CreateControlPanel,
    DeleteControlPanel,
    CreateRoutingControl,
    DeleteRoutingControl,
    ListRoutingControls,
    GetRoutingControlState,
    UpdateRoutingControlState,
    UpdateRoutingControlStates,
    CreateSafetyRule,
    UpdateSafetyRule,
    DeleteSafetyRule,
    ListSafetyRules,
    RegisterManagedResource,
    GetManagedResource,
    ListManagedResources,
    StartZonalShift,
    UpdateZonalShift,
    CancelZonalShift,
    ListZonalShifts,
    CreatePracticeRunConfiguration,
    UpdatePracticeRunConfiguration,
    DeletePracticeRunConfiguration,
    StartPracticeRun,
    CancelPracticeRun,
    UpdateZonalAutoshiftConfiguration,
    StartAutoshift,
    EndAutoshift,
    SetAlarmState,
}

/// The operations beside their names.
const OPERATIONS: [(&[u8], Operation); 28] = [
    (b"CreateControlPanel", Operation::CreateControlPanel),
    (b"DeleteControlPanel", Operation::DeleteControlPanel),
    (b"CreateRoutingControl", Operation::CreateRoutingControl),
    (b"DeleteRoutingControl", Operation::DeleteRoutingControl),
    (b"ListRoutingControls", Operation::ListRoutingControls),
    (b"GetRoutingControlState", Operation::GetRoutingControlState),
    (
        b"UpdateRoutingControlState",
        Operation::UpdateRoutingControlState,
    ),
    (
        b"UpdateRoutingControlStates",
        Operation::UpdateRoutingControlStates,
    ),
    (b"CreateSafetyRule", Operation::CreateSafetyRule),
    (b"UpdateSafetyRule", Operation::UpdateSafetyRule),
    (b"DeleteSafetyRule", Operation::DeleteSafetyRule),
    (b"ListSafetyRules", Operation::ListSafetyRules),
    (
        b"RegisterManagedResource",
        Operation::RegisterManagedResource,
    ),
    (b"GetManagedResource", Operation::GetManagedResource),
    (b"ListManagedResources", Operation::ListManagedResources),
    (b"StartZonalShift", Operation::StartZonalShift),
    (b"UpdateZonalShift", Operation::UpdateZonalShift),
    (b"CancelZonalShift", Operation::CancelZonalShift),
    (b"ListZonalShifts", Operation::ListZonalShifts),
    (
        b"CreatePracticeRunConfiguration",
        Operation::CreatePracticeRunConfiguration,
    ),
    (
        b"UpdatePracticeRunConfiguration",
        Operation::UpdatePracticeRunConfiguration,
    ),
    (
        b"DeletePracticeRunConfiguration",
        Operation::DeletePracticeRunConfiguration,
    ),
    (b"StartPracticeRun", Operation::StartPracticeRun),
    (b"CancelPracticeRun", Operation::CancelPracticeRun),
    (
        b"UpdateZonalAutoshiftConfiguration",
        Operation::UpdateZonalAutoshiftConfiguration,
    ),
    (b"StartAutoshift", Operation::StartAutoshift),
    (b"EndAutoshift", Operation::EndAutoshift),
    (b"SetAlarmState", Operation::SetAlarmState),
];

/// The operation of this name.
#[tactic(auto, unfolding(crate::specs::Operations::operation_of))]
pub(crate) fn operation_of(name: &[u8]) -> Option<Operation>
    ensures { result ≡ operation_of name.now }
{
    beside(&OPERATIONS, name)
}

/// The operation beside this name in a table.
fn beside(table: &[(&[u8], Operation)], name: &[u8]) -> Option<Operation>
    ensures { result ≡ beside (map (λ row. (row.0.now, row.1)) table.now) name.now }
{
    let mut rest = table;
    while let [row, others @ ..] = rest {
        if row.0 == name {
            return Some(row.1);
        }
        rest = others;
    }
    None
}
