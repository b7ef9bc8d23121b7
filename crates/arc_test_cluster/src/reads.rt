//! Reads of a state beside its list of commands: each is answered at list time, and isn't counted.
ghost use Rattle.std.specs.Prelude.{IfOk};
ghost use Rattle.arc_data.specs.Valid.{IsValid};

use arc_data::{Command, CommandId, MAX_MS, Op};
use arc_json::{read_op, reply_text};
use arc_state::{ReadOp, State};
use std::alloc::Global;
use std::process::Abort;
use std::test::Fail;

/// Monday 00:30, when the run starts, and the moment at which it is over.
const RUN_START: u64 = 347_400_000;

const RUN_OVER: u64 = 349_200_000;

/// The operation that a name and a body ask for.
fn op_of(alloc: Global, name: &str, body: &str) -> Result<Op, Fail>
    ensures { IfOk result IsValid }
{
    match read_op(alloc, name.as_bytes(), body.as_bytes()) {
        Ok(op) => Ok(op),
        Err(_) => Err(Fail::from("no operation")),
    }
}

/// Gives the state a command, whatever its reply.
fn give(
    alloc: Global,
    state: &mut State,
    at_ms: u64,
    (name, body): (&str, &str),
) -> Result<(), Fail> {
    if at_ms > MAX_MS || state.count() > 1_000_000 {
        return Err(Fail::from("too late or too many"));
    }
    let command = Command {
        id: CommandId {
            node: 0,
            inc: 1,
            n: 0,
        },
        at_ms,
        token: 0,
        op: op_of(alloc, name, body)?,
    };
    let reply = state.apply(alloc, &command);
    drop(command);
    drop(reply?);
    Ok(())
}

/// The text that a state answers to a read now; none where the operation is no read.
fn answer(alloc: Global, state: &State, name: &str, body: &str) -> Result<Vec<u8>, Fail> {
    let op = op_of(alloc, name, body)?;
    let read = ReadOp::of(&op);
    drop(op);
    match read {
        Some(read) => {
            let reply = state.answer_read(alloc, &read)?;
            let text = reply_text(alloc, &reply);
            drop(reply);
            Ok(text?.1)
        }
        None => Ok(Vec::new(alloc)),
    }
}

/// Names and bodies of reads, and the texts of their answers.
type Reads<'a> = &'a [(&'a str, &'a str, &'a str)];

/// Asks a state for each, and compares what it answers.
fn check_all(rt: &(impl Abort + AllocGlobal), state: &State, rows: Reads<'_>) -> Result<(), Fail> {
    for (name, body, expected) in rows {
        let text = answer(rt.alloc(), state, name, body)?;
        assert_eq!(rt; text.as_slice(), expected.as_bytes(), "{name} {body}");
    }
    Ok(())
}

const REGISTER: (&str, &str) = (
    "RegisterManagedResource",
    r#"{"name":"lb","availabilityZones":["az1","az2"]}"#,
);

const CONFIGURE: (&str, &str) = (
    "CreatePracticeRunConfiguration",
    r#"{"resourceIdentifier":"arn:arc:resource/0000000000000001","outcomeAlarms":[{"alarmIdentifier":"errors"}]}"#,
);

const START: (&str, &str) = (
    "StartPracticeRun",
    r#"{"resourceIdentifier":"arn:arc:resource/0000000000000001","awayFrom":"az1","comment":""}"#,
);

/// A zone that isn't in autoshift.
const END_AUTOSHIFT: (&str, &str) = ("EndAutoshift", r#"{"awayFrom":"az1"}"#);

const PENDING: &str =
    r#"{"items":[{"awayFrom":"az1","comment":"","expiryTime":349200000,"practiceRunOutcome":"PENDING","resourceIdentifier":"arn:arc:resource/0000000000000001","startTime":347400000,"status":"ACTIVE","zonalShiftId":"00000000-0000-0000-0000-000000000001"}]}"#;

const ACTIVE: &str =
    r#"{"resourceIdentifier":"arn:arc:resource/0000000000000001","status":"ACTIVE"}"#;

const RESOURCE: &str = r#"{"resourceIdentifier":"arn:arc:resource/0000000000000001"}"#;

const IN_A_RUN: [(&str, &str, &str); 10] = [
    ("ListZonalShifts", "{}", PENDING),
    ("ListZonalShifts", ACTIVE, PENDING),
    (
        "ListZonalShifts",
        r#"{"resourceIdentifier":"arn:arc:resource/0000000000000001","status":"EXPIRED"}"#,
        r#"{"items":[]}"#,
    ),
    (
        "ListZonalShifts",
        r#"{"resourceIdentifier":"arn:arc:resource/0000000000000002","status":"ACTIVE"}"#,
        r#"{"Reason":"NotFound","Resource":"arn:arc:resource/0000000000000002","__type":"ResourceNotFoundException"}"#,
    ),
    (
        "GetManagedResource",
        RESOURCE,
        r#"{"appliedShift":{"awayFrom":"az1","kind":"PRACTICE_RUN"},"availabilityZones":["az1","az2"],"name":"lb","resourceIdentifier":"arn:arc:resource/0000000000000001","zonalAutoshiftStatus":"DISABLED"}"#,
    ),
    (
        "ListManagedResources",
        "",
        r#"{"items":[{"name":"lb","resourceIdentifier":"arn:arc:resource/0000000000000001"}]}"#,
    ),
    ("ListRoutingControls", "", r#"{"RoutingControls":[]}"#),
    (
        "GetRoutingControlState",
        r#"{"RoutingControlArn":"arn:arc:control/0000000000000001"}"#,
        r#"{"Reason":"NotFound","Resource":"arn:arc:control/0000000000000001","__type":"ResourceNotFoundException"}"#,
    ),
    (
        "ListSafetyRules",
        r#"{"ControlPanelArn":"arn:arc:panel/0000000000000001"}"#,
        r#"{"SafetyRules":[]}"#,
    ),
    ("EndAutoshift", r#"{"awayFrom":"az1"}"#, ""),
];

const AFTER_IT: [(&str, &str, &str); 2] = [
    ("ListZonalShifts", ACTIVE, r#"{"items":[]}"#),
    (
        "GetManagedResource",
        RESOURCE,
        r#"{"appliedShift":null,"availabilityZones":["az1","az2"],"name":"lb","resourceIdentifier":"arn:arc:resource/0000000000000001","zonalAutoshiftStatus":"DISABLED"}"#,
    ),
];

/// Gives a fresh state commands, and asks it while a run is pending and when it is over. The state is lent, so that no exit
/// of this function drops it.
fn play(rt: &(impl Abort + AllocGlobal), state: &mut State) -> Result<(), Fail> {
    let alloc = rt.alloc();
    give(alloc, state, 0, REGISTER)?;
    give(alloc, state, 0, CONFIGURE)?;
    give(alloc, state, RUN_START, START)?;
    check_all(rt, state, &IN_A_RUN)?;
    assert_eq!(rt; state.count(), 3);
    // a command that is refused moves list time to the run's end
    give(alloc, state, RUN_OVER, END_AUTOSHIFT)?;
    check_all(rt, state, &AFTER_IT)?;
    assert_eq!(rt; state.count(), 4);
    Ok(())
}

#[test]
fn a_read_is_answered_at_list_time(rt: HostRuntime) -> Result<(), Fail> {
    let mut state = State::fresh(rt.alloc())?;
    let played = play(&rt, &mut state);
    drop(state);
    played
}
