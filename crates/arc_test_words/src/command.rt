//! The bytes of commands and of entries, worked out by hand.
ghost use Rattle.arc_data.specs.Valid.{IsValidCommand, IsValidRecord};

use arc_bytes::Memory;
use arc_command::{
    Command, CommandEnd, CommandId, MAX_MS, Record, decode, decode_record, encode, encode_record,
};
use arc_json::read_op;
use std::alloc::Global;
use std::process::Abort;
use std::test::Fail;

/// What stands before the number of the operation: node 4, incarnation 1, number 2, `MAX_MS`, token 6.
const HEAD: [u8; 26] = [
    1, 4, 0, 0, 0, 1, 0, 0, 0, 2, 0, 0, 0xe6, 0x77, 0xd2, 0x1f, 0xdb, 0xff, 0, 0, 0, 0, 0, 0, 0, 6,
];

/// Operations by their names and bodies, and their bytes: the number and the fields. Each operation has a row, one whose
/// member may be absent has a row without it or its default, and a rule has one of each kind.
const OPERATIONS: [(&str, &str, &[u8]); 30] = [
    (
        "CreateControlPanel",
        r#"{"ControlPanelName":"p"}"#,
        &[1, 0, 1, b'p'],
    ),
    (
        "DeleteControlPanel",
        r#"{"ControlPanelArn":"arn:arc:panel/0000000000000009"}"#,
        &[2, 0, 0, 0, 0, 0, 0, 0, 9],
    ),
    (
        "CreateRoutingControl",
        r#"{"RoutingControlName":"cell-a","ControlPanelArn":"arn:arc:panel/0000000000000003"}"#,
        &[
            3, 0, 6, b'c', b'e', b'l', b'l', b'-', b'a', 0, 0, 0, 0, 0, 0, 0, 3,
        ],
    ),
    (
        "DeleteRoutingControl",
        r#"{"RoutingControlArn":"arn:arc:control/0000000000000009"}"#,
        &[4, 0, 0, 0, 0, 0, 0, 0, 9],
    ),
    ("ListRoutingControls", "", &[5, 0]),
    (
        "ListRoutingControls",
        r#"{"ControlPanelArn":"arn:arc:panel/0000000000000009"}"#,
        &[5, 1, 0, 0, 0, 0, 0, 0, 0, 9],
    ),
    (
        "GetRoutingControlState",
        r#"{"RoutingControlArn":"arn:arc:control/0000000000000001"}"#,
        &[6, 0, 0, 0, 0, 0, 0, 0, 1],
    ),
    (
        "UpdateRoutingControlState",
        r#"{"RoutingControlArn":"arn:arc:control/0000000000000005","RoutingControlState":"On","SafetyRulesToOverride":["arn:arc:rule/0000000000000007","arn:arc:rule/0000000000000007"]}"#,
        &[
            7, 0, 0, 0, 0, 0, 0, 0, 5, 1, 0, 2, 0, 0, 0, 0, 0, 0, 0, 7, 0, 0, 0, 0, 0, 0, 0, 7,
        ],
    ),
    (
        "UpdateRoutingControlStates",
        r#"{"UpdateRoutingControlStateEntries":[{"RoutingControlArn":"arn:arc:control/0000000000000005","RoutingControlState":"On"},{"RoutingControlArn":"arn:arc:control/0000000000000006","RoutingControlState":"Off"}]}"#,
        &[
            8, 0, 2, 0, 0, 0, 0, 0, 0, 0, 5, 1, 0, 0, 0, 0, 0, 0, 0, 6, 0, 0, 0,
        ],
    ),
    (
        "CreateSafetyRule",
        r#"{"AssertionRule":{"Name":"r","ControlPanelArn":"arn:arc:panel/0000000000000003","AssertedControls":["arn:arc:control/0000000000000001","arn:arc:control/0000000000000002"],"RuleConfig":{"Type":"ATLEAST","Threshold":2,"Inverted":true},"WaitPeriodMs":1000}}"#,
        &[
            9, 1, 0, 1, b'r', 0, 0, 0, 0, 0, 0, 0, 3, 0, 2, 0, 0, 0, 0, 0, 0, 0, 1, 0, 0, 0, 0, 0,
            0, 0, 2, 3, 0, 2, 1, 0, 0, 3, 0xe8,
        ],
    ),
    (
        "CreateSafetyRule",
        r#"{"GatingRule":{"Name":"r","ControlPanelArn":"arn:arc:panel/0000000000000003","GatingControls":["arn:arc:control/0000000000000001"],"TargetControls":["arn:arc:control/0000000000000002"],"RuleConfig":{"Type":"OR","Threshold":9},"WaitPeriodMs":0}}"#,
        &[
            9, 2, 0, 1, b'r', 0, 0, 0, 0, 0, 0, 0, 3, 0, 1, 0, 0, 0, 0, 0, 0, 0, 1, 0, 1, 0, 0, 0,
            0, 0, 0, 0, 2, 2, 0, 0, 0, 0, 0, 0, 0,
        ],
    ),
    (
        "UpdateSafetyRule",
        r#"{"GatingRuleUpdate":{"SafetyRuleArn":"arn:arc:rule/0000000000000009","Name":"r","WaitPeriodMs":5}}"#,
        &[10, 2, 0, 0, 0, 0, 0, 0, 0, 9, 0, 1, b'r', 0, 0, 0, 5],
    ),
    (
        "DeleteSafetyRule",
        r#"{"SafetyRuleArn":"arn:arc:rule/0000000000000009"}"#,
        &[11, 0, 0, 0, 0, 0, 0, 0, 9],
    ),
    (
        "ListSafetyRules",
        r#"{"ControlPanelArn":"arn:arc:panel/0000000000000009"}"#,
        &[12, 0, 0, 0, 0, 0, 0, 0, 9],
    ),
    (
        "RegisterManagedResource",
        r#"{"name":"r","availabilityZones":["a","b"]}"#,
        &[13, 0, 1, b'r', 0, 2, 0, 1, b'a', 0, 1, b'b'],
    ),
    (
        "GetManagedResource",
        r#"{"resourceIdentifier":"arn:arc:resource/0000000000000009"}"#,
        &[14, 0, 0, 0, 0, 0, 0, 0, 9],
    ),
    ("ListManagedResources", "", &[15]),
    (
        "StartZonalShift",
        r#"{"resourceIdentifier":"arn:arc:resource/0000000000000009","awayFrom":"a","expiresIn":"72h","comment":"c"}"#,
        &[
            16, 0, 0, 0, 0, 0, 0, 0, 9, 0, 1, b'a', 0, 0, 0x10, 0xe0, 0, 1, b'c',
        ],
    ),
    (
        "UpdateZonalShift",
        r#"{"zonalShiftId":"00000000-0000-0000-0000-000000000009","comment":""}"#,
        &[17, 0, 0, 0, 0, 0, 0, 0, 9, 1, 0, 0, 0],
    ),
    (
        "CancelZonalShift",
        r#"{"zonalShiftId":"00000000-0000-0000-0000-000000000009"}"#,
        &[18, 0, 0, 0, 0, 0, 0, 0, 9],
    ),
    (
        "ListZonalShifts",
        r#"{"status":"CANCELED"}"#,
        &[19, 0, 1, 3],
    ),
    (
        "CreatePracticeRunConfiguration",
        r#"{"resourceIdentifier":"arn:arc:resource/0000000000000009","blockedDates":["9999-12-31"],"blockedWindows":["Sun:23:59-Sun:22:24"],"outcomeAlarms":[{"alarmIdentifier":"x"}]}"#,
        &[
            20, 0, 0, 0, 0, 0, 0, 0, 9, 0, 1, 0, 0x2c, 0xc0, 0xa0, 0, 1, 0x27, 0x5f, 0x27, 0, 0, 0,
            0, 1, 0, 1, b'x',
        ],
    ),
    (
        "UpdatePracticeRunConfiguration",
        r#"{"resourceIdentifier":"arn:arc:resource/0000000000000009","blockingAlarms":[]}"#,
        &[21, 0, 0, 0, 0, 0, 0, 0, 9, 0, 0, 1, 0, 0, 0],
    ),
    (
        "DeletePracticeRunConfiguration",
        r#"{"resourceIdentifier":"arn:arc:resource/0000000000000009"}"#,
        &[22, 0, 0, 0, 0, 0, 0, 0, 9],
    ),
    (
        "StartPracticeRun",
        r#"{"resourceIdentifier":"arn:arc:resource/0000000000000009","awayFrom":"a","comment":""}"#,
        &[23, 0, 0, 0, 0, 0, 0, 0, 9, 0, 1, b'a', 0, 0],
    ),
    (
        "CancelPracticeRun",
        r#"{"zonalShiftId":"00000000-0000-0000-0000-000000000009"}"#,
        &[24, 0, 0, 0, 0, 0, 0, 0, 9],
    ),
    (
        "UpdateZonalAutoshiftConfiguration",
        r#"{"resourceIdentifier":"arn:arc:resource/0000000000000009","zonalAutoshiftStatus":"ENABLED"}"#,
        &[25, 0, 0, 0, 0, 0, 0, 0, 9, 1],
    ),
    ("StartAutoshift", r#"{"awayFrom":"a"}"#, &[26, 0, 1, b'a']),
    ("EndAutoshift", r#"{"awayFrom":"a"}"#, &[27, 0, 1, b'a']),
    (
        "SetAlarmState",
        r#"{"alarmIdentifier":"x","state":"ALARM"}"#,
        &[28, 0, 1, b'x', 1],
    ),
];

/// The bytes of the operation of a row behind the head.
fn row(alloc: Global, at: usize) -> Result<Vec<u8>, Fail> {
    let (_, _, fields) = OPERATIONS.get(at).ok_or("a row lies within the table")?;
    Ok([HEAD.as_slice(), *fields].concat(alloc)?)
}

/// Where the command at the front of these bytes ends.
fn end_of(alloc: Global, bytes: &[u8]) -> Result<usize, CommandEnd> {
    let (command, end) = decode(alloc, bytes)?;
    drop(command);
    Ok(end)
}

/// The spelling of a command.
fn spelled(alloc: Global, command: &Command) -> Result<Vec<u8>, Memory>
    requires { IsValidCommand command.now }
{
    let mut out = Vec::new(alloc);
    encode(command, &mut out)?;
    Ok(out)
}

/// The spelling of an entry.
fn spelled_entry(alloc: Global, entry: &Record) -> Result<Vec<u8>, Memory>
    requires { IsValidRecord entry.now }
{
    let mut out = Vec::new(alloc);
    encode_record(entry, &mut out)?;
    Ok(out)
}

/// The spelling of the command at the front of these bytes.
fn again(alloc: Global, bytes: &[u8]) -> Result<Vec<u8>, CommandEnd> {
    let (command, _) = decode(alloc, bytes)?;
    let out = spelled(alloc, &command);
    drop(command);
    Ok(out?)
}

/// The spelling of the command of node 4 whose operation has this name and body.
fn spelled_by_name(alloc: Global, name: &str, body: &str) -> Result<Vec<u8>, Fail> {
    let Ok(op) = read_op(alloc, name.as_bytes(), body.as_bytes()) else {
        return Err("a body of the table is read".into());
    };
    let id = CommandId {
        node: 4,
        inc: 1,
        n: 2,
    };
    let command = Command {
        id,
        at_ms: MAX_MS,
        token: 6,
        op,
    };
    let out = spelled(alloc, &command);
    drop(command);
    Ok(out?)
}

/// Spells each operation, and reads and spells it again.
fn check_operations(
    rt: &(impl Abort + AllocGlobal),
    rows: &[(&str, &str, &[u8])],
) -> Result<(), Fail> {
    let alloc = rt.alloc();
    for (name, body, fields) in rows {
        let bytes = [HEAD.as_slice(), *fields].concat(alloc)?;
        assert_eq!(rt; spelled_by_name(alloc, name, body)?, bytes, "{name} {body}");
        assert_eq!(rt; again(alloc, &bytes)?, bytes, "{name} {body}");
    }
    Ok(())
}

#[test]
fn the_bytes_of_operations(rt: HostRuntime) -> Result<(), Fail> {
    check_operations(&rt, &OPERATIONS)
}

/// A row, a place in its command, the byte that stands there instead, and where the command then ends, or the place
/// that is refused.
const CHANGED: [(usize, usize, u8, Result<usize, usize>); 25] = [
    // the version, the node, the incarnation, the time, the number of the operation
    (6, 0, 9, Err(0)),
    (6, 1, 5, Err(1)),
    (6, 5, 0, Err(2)),
    (6, 16, 0xdc, Err(10)),
    (6, 26, 0, Err(26)),
    (6, 26, 29, Err(26)),
    (6, 26, 255, Err(26)),
    // a text of 64 bytes, of 65 and of none, and one that isn't UTF-8
    (2, 28, 64, Ok(101)),
    (2, 28, 65, Err(27)),
    (2, 28, 0, Err(27)),
    (2, 29, 255, Err(27)),
    // a switch, and a list of 16 and of 17
    (7, 35, 0, Ok(54)),
    (7, 35, 2, Err(35)),
    (7, 37, 16, Ok(166)),
    (7, 37, 17, Err(36)),
    // the same control twice, and the same zone
    (8, 45, 5, Err(38)),
    (14, 37, b'a', Err(35)),
    // a threshold above the controls, one without ATLEAST, and a kind 3
    (9, 59, 3, Err(58)),
    (10, 61, 1, Err(60)),
    (11, 27, 3, Err(27)),
    // 4,321 minutes, and a status 4
    (17, 41, 0xe1, Err(38)),
    (20, 29, 4, Err(29)),
    // a date too late, a minute behind the week, and a window that ends where it begins
    (21, 40, 0xa1, Err(37)),
    (21, 43, 0x28, Err(43)),
    (21, 46, 0x5f, Err(45)),
];

#[test]
fn a_field_is_read_within_its_limits_and_refused_at_its_place(rt: HostRuntime) -> Result<(), Fail> {
    let alloc = rt.alloc();
    for (at, place, byte, end) in CHANGED {
        // 200 bytes 0 follow.
        let mut bytes = [row(alloc, at)?.as_slice(), [0; 200].as_slice()].concat(alloc)?;
        *bytes.get_mut(place).ok_or("a place lies within the bytes")? = byte;
        let end = end.map_err(|place| CommandEnd::BadCommand { place });
        assert_eq!(rt; end_of(alloc, &bytes), end, "{byte} at {place} of row {at}");
    }
    Ok(())
}

/// A row, where its command is cut, and the place that is refused.
const CUT: [(usize, usize, usize); 16] = [
    (6, 0, 0),
    (6, 1, 1),
    (6, 2, 2),
    (6, 5, 2),
    (6, 6, 6),
    (6, 10, 10),
    (6, 18, 18),
    (6, 26, 26),
    (6, 27, 27),
    (6, 34, 27),
    (2, 28, 27),
    (2, 34, 27),
    (2, 42, 35),
    (7, 35, 35),
    (7, 37, 36),
    (7, 53, 46),
];

#[test]
fn a_cut_command_is_refused_at_the_field_that_is_cut(rt: HostRuntime) -> Result<(), Fail> {
    let alloc = rt.alloc();
    for (at, len, place) in CUT {
        let bytes = row(alloc, at)?;
        let cut = bytes.get(..len).ok_or("a cut lies within the bytes")?;
        let end = Err(CommandEnd::BadCommand { place });
        assert_eq!(rt; end_of(alloc, cut), end, "row {at} cut at {len}");
    }
    Ok(())
}

/// Entries: what stands before their command, and the row of that command.
const ENTRIES: [(&[u8], Option<usize>); 4] = [
    (&[1, 0, 0, 0, 1], None),
    (&[2, 0, 0, 0, 3, 0, 0, 0, 0, 0, 0, 1, 2], None),
    (&[3, 0, 0, 0, 4, 0, 0, 0, 0, 0, 0, 0, 6], Some(7)),
    (&[4, 0, 0, 1, 2], Some(2)),
];

/// The spelling of the entry that these bytes are.
fn entry_again(alloc: Global, bytes: &[u8]) -> Result<Vec<u8>, CommandEnd> {
    let entry = decode_record(alloc, bytes)?;
    let out = spelled_entry(alloc, &entry);
    drop(entry);
    Ok(out?)
}

#[test]
fn the_bytes_of_entries(rt: HostRuntime) -> Result<(), Fail> {
    let alloc = rt.alloc();
    for (front, at) in ENTRIES {
        let mut bytes = front.to_vec(alloc)?;
        if let Some(at) = at {
            bytes.extend_from_slice(row(alloc, at)?.as_slice())?;
        }
        assert_eq!(rt; entry_again(alloc, &bytes)?, bytes);
        // Nothing stands behind an entry.
        let place = bytes.len();
        bytes.push(7)?;
        assert_eq!(rt;
            entry_again(alloc, &bytes),
            Err(CommandEnd::BadCommand { place })
        );
    }
    Ok(())
}
