//! What the parts say of shifts and runs that no list of commands makes: events that come too late. Whatever a list of
//! commands makes is told by stories.
use arc_data::{List, ResourceId, ShiftId, Text, ZoneName};
use arc_practice::{Ending, Outcome, Run, outcome};
use arc_shift::{Shift, Status, status};
use std::alloc::Global;
use std::test::Fail;

const LOAD_BALANCER: ResourceId = ResourceId(1);

/// When the run of a test is over.
const RUN_OVER: u64 = 1_800_000;

fn zone(name: &str) -> Result<ZoneName, Fail> {
    Ok(ZoneName::of(name).ok_or("no zone")?)
}

#[test]
fn a_cancel_at_the_expiry_of_a_shift_is_none(rt: HostRuntime) -> Result<(), Fail> {
    let shift = Shift {
        id: ShiftId(1),
        resource: LOAD_BALANCER,
        away_from: zone("az1")?,
        comment: Text::of(rt.alloc(), "")?,
        start: 1_000,
        expiry: 2_000,
        canceled: Some(2_000),
    };
    assert_eq!(rt; status(&shift, 2_000), Status::Expired);
    Ok(())
}

/// A run that an event ends a moment too late.
fn ended(alloc: Global, ending: Ending) -> Result<Run, Fail> {
    Ok(Run {
        id: ShiftId(1),
        resource: LOAD_BALANCER,
        away_from: zone("az1")?,
        comment: Text::of(alloc, "")?,
        start: 0,
        outcome_alarms: List::of(vec![in alloc; Text::of(alloc, "errors")?]?),
        ended: Some((ending, RUN_OVER)),
    })
}

#[test]
fn an_event_at_the_end_of_a_run_is_none(rt: HostRuntime) -> Result<(), Fail> {
    for ending in [Ending::Alarm, Ending::Interrupt] {
        let run = ended(rt.alloc(), ending)?;
        assert_eq!(rt; outcome(&run, RUN_OVER), Outcome::Succeeded);
    }
    Ok(())
}
