//! Readers of commands that are published.
ghost use Rattle.std.specs.Prelude.{◌≡◌, All, IfOk};
ghost use Rattle.arc_data.specs.Valid.{IsValidCommand};
ghost use Rattle.arc_snapshot.specs.Rule.{newcomer};

use arc_data::{Command, CommandId, Op, PanelId, Reply, Text};
use arc_snapshot::{Handles, Memory, ReadEnd, ReadSide, WriteSide, sides};
use arc_state::ReadOp;
use arc_token::Token;
use std::alloc::Global;
use std::process::Abort;
use std::slice;
use std::sync::{Barrier, Wait};
use std::test::Fail;
use std::thread::{Threads, join};

/// A call that makes the panel "east".
fn make_panel(alloc: Global) -> Result<Command, Memory>
    ensures { IfOk result IsValidCommand }
{
    Ok(Command {
        id: CommandId {
            node: 0,
            inc: 1,
            n: 0,
        },
        at_ms: 7,
        token: 0,
        op: Op::CreateControlPanel {
            name: Text::of(alloc, "east")?,
        },
    })
}

/// A call that changes nothing.
fn list_resources() -> Command
    ensures { IsValidCommand result }
{
    Command {
        id: CommandId {
            node: 0,
            inc: 1,
            n: 1,
        },
        at_ms: 8,
        token: 0,
        op: Op::ListManagedResources,
    }
}

/// The controls of the second panel, which is the first that a call makes.
const CONTROLS: ReadOp = ReadOp::ListRoutingControls {
    panel: Some(PanelId(2)),
};

/// What a read tells: whether the operation was done, and with which token.
fn told(alloc: Global, reader: &mut ReadSide, token: u64) -> Result<(bool, u64), ReadEnd>
    ensures { reader.new.sides ≡ reader.old.sides }
{
    let (reply, token) = reader.read(alloc, Token(token), &CONTROLS)?;
    let done = matches!(reply, Reply::Done(_));
    drop(reply);
    Ok((done, token.0))
}

/// Publishes one command, where there are few.
fn publish_one<R: Wait + Drop>(
    alloc: Global,
    side: &mut WriteSide<R>,
    command: Command,
) -> Result<(), Memory>
    requires { IsValidCommand command }
    ensures { side.new.sides ≡ side.old.sides }
{
    let published = if side.taken() < 1000 {
        side.publish(alloc, slice::from_ref(&command))
    } else {
        Ok(())
    };
    drop(command);
    published
}

/// Two commands are published, one of which makes the panel.
fn publish_two<R: Wait + Drop>(alloc: Global, side: &mut WriteSide<R>) -> Result<(), Memory>
    ensures { side.new.sides ≡ side.old.sides }
{
    publish_one(alloc, side, make_panel(alloc)?)?;
    publish_one(alloc, side, list_resources())
}

/// The row of tokens.
fn check_tokens<R: Wait + Drop>(
    rt: &impl Abort,
    alloc: Global,
    side: &mut WriteSide<R>,
    reader: &mut ReadSide,
) -> Result<(), Fail>
    requires { reader.old.sides ≡ side.old.sides }
{
    assert!(rt; told(alloc, reader, 0) == Ok((false, 0)));
    publish_two(alloc, side)?;
    assert!(rt; told(alloc, reader, 3) == Err(ReadEnd::Behind { have: 2, asked: 3 }));
    assert!(rt; told(alloc, reader, 2) == Ok((true, 2)));
    assert!(rt; side.published() == 2 && side.taken() == 2);
    side.tell(reader)?;
    assert!(rt; reader.told() == 2);
    Ok(())
}

/// Checks the row of tokens over the first reader.
fn check_first<R: Wait + Drop>(
    rt: &impl Abort,
    alloc: Global,
    side: &mut WriteSide<R>,
    reads: &mut [ReadSide],
) -> Result<(), Fail>
    requires { All (λ r. r ≡ newcomer side.old.sides) reads.old }
{
    if reads.is_empty() {
        return Err(Fail::new("there is no reader"));
    }
    check_tokens(rt, alloc, side, &mut reads[0])
}

#[test]
fn a_snapshot_of_two_commands_answers_token_two_and_is_behind_token_three(
    rt: HostRuntime,
) -> Result<(), Fail> {
    let (mut side, mut reads) = sides(rt.alloc(), &rt, 1, &mut Handles::default())?;
    let checked = check_first(&rt, rt.alloc(), &mut side, reads.as_mut_slice());
    drop(reads);
    drop(side);
    checked
}

/// Publishes fifty commands, one by one.
fn publish_fifty<R: Wait + Drop>(alloc: Global, side: &mut WriteSide<R>) -> Result<(), Memory> {
    for _ in 0..50 {
        publish_one(alloc, side, list_resources())?;
    }
    Ok(())
}

/// Reads a thousand times, each time with the token of the read before, and returns the last one.
fn read_a_thousand_times(alloc: Global, reader: &mut ReadSide) -> Result<u64, ReadEnd> {
    let mut last = 0;
    for _ in 0..1000 {
        let (_, token) = told(alloc, reader, last)?;
        last = token;
    }
    Ok(last)
}

/// A writer in its thread.
fn write<H: Wait + Drop>(
    alloc: Global,
    mut side: WriteSide<H>,
) -> (WriteSide<H>, Result<(), Memory>) {
    let written = publish_fifty(alloc, &mut side);
    (side, written)
}

/// A reader in its thread.
fn read(alloc: Global, mut reader: ReadSide) -> Result<u64, ReadEnd> {
    let last = read_a_thousand_times(alloc, &mut reader);
    drop(reader);
    last
}

/// A writer, and a reader in another thread.
fn read_beside<R: Threads, H: Wait + Drop>(
    rt: &R,
    alloc: Global,
    side: WriteSide<H>,
    reader: ReadSide,
) -> (WriteSide<H>, Result<(), Memory>, Result<u64, ReadEnd>) {
    let (last, (side, written)) = join(rt, move || read(alloc, reader), move || write(alloc, side));
    (side, written, last)
}

#[test]
fn a_reader_beside_a_writer_never_goes_back(rt: HostRuntime) -> Result<(), Fail> {
    let (side, mut reads) = sides(rt.alloc(), &rt, 1, &mut Handles::default())?;
    let reader = reads.pop();
    drop(reads);
    let Some(reader) = reader else {
        drop(side);
        return Err(Fail::new("there is no reader"));
    };
    let (side, written, last) = read_beside(&rt, rt.alloc(), side, reader);
    let published = side.published();
    drop(side);
    assert!(rt; written.is_ok() && published == 50);
    assert!(rt; last.is_ok());
    Ok(())
}

/// How many rounds the writer and the reader take in turn.
const ROUNDS: u64 = 50;

/// A writer that publishes one command a round, and then lets the reader read. It goes through all rounds even where it
/// fails, since the reader waits for it in each.
fn write_in_turn<H: Wait + Drop>(
    rt: &impl Wait,
    alloc: Global,
    mut side: WriteSide<H>,
    turn: &Barrier,
) -> (WriteSide<H>, Result<(), Memory>) {
    let mut written = Ok(());
    for _ in 0..ROUNDS {
        if written.is_ok() {
            written = publish_one(alloc, &mut side, list_resources());
        }
        turn.wait(rt);
        turn.wait(rt);
    }
    (side, written)
}

/// A reader that reads once a round, behind the writer's command, and asks for it. Tells whether each read entered just the
/// commands that were published by then.
fn read_in_turn(rt: &impl Wait, alloc: Global, mut reader: ReadSide, turn: &Barrier) -> bool {
    let mut has_met_each = true;
    for round in 0..ROUNDS {
        turn.wait(rt);
        if told(alloc, &mut reader, round + 1) != Ok((false, round + 1)) {
            has_met_each = false;
        }
        turn.wait(rt);
    }
    drop(reader);
    has_met_each
}

/// A writer, and a reader in another thread, which go round by round.
fn take_turns<R: Threads + Wait + Sync, H: Wait + Drop>(
    rt: &R,
    alloc: Global,
    side: WriteSide<H>,
    reader: ReadSide,
) -> (WriteSide<H>, Result<(), Memory>, bool) {
    let turn = Barrier::new(2);
    let (has_met_each, (side, written)) = join(
        rt,
        || read_in_turn(rt, alloc, reader, &turn),
        || write_in_turn(rt, alloc, side, &turn),
    );
    (side, written, has_met_each)
}

#[test]
fn a_reader_in_another_thread_meets_each_command_once_it_is_published(
    rt: HostRuntime,
) -> Result<(), Fail> {
    let (side, mut reads) = sides(rt.alloc(), &rt, 1, &mut Handles::default())?;
    let reader = reads.pop();
    drop(reads);
    let Some(reader) = reader else {
        drop(side);
        return Err(Fail::new("there is no reader"));
    };
    let (side, written, has_met_each) = take_turns(&rt, rt.alloc(), side, reader);
    let published = side.published();
    drop(side);
    assert!(rt; written.is_ok() && published == ROUNDS);
    assert!(rt; has_met_each);
    Ok(())
}
