//! The side of a reader.
ghost use Rattle.std.specs.Prelude.{◌≡◌, [], length};
ghost use Rattle.arc_snapshot.specs.Reading.{Finds, Reads};
ghost use Rattle.arc_snapshot.specs.Seats.{known_at};

use crate::ReadEnd;
use crate::record::Front;
use crate::rule::{Enter, Hear, SnapshotReader};
use arc_data::Reply;
use arc_state::ReadOp;
use arc_token::Token;
use core::mem::replace_with;
use std::alloc::Global;
use std::marker::Model;

/// A reader of the published commands. It waits for nobody, and never goes back. A contract sees what it knows.
#[derive(Drop)]
pub struct ReadSide {
    reader: SnapshotReader,
    /// How many commands it was told of.
    told: u64,
}

impl Model for ReadSide {
    ghost use Rattle.std.specs.Prelude.{◌≡◌, length};
    ghost use Rattle.arc_snapshot.specs.declared.known.Known.{Known};

    ghost Value = { Known };

    ghost use Rattle.arc_snapshot.specs.Seats.{known_at};

    ghost view = { λ r. known_at r.reader.place };

    ghost invariant = { λ r. r.told ≡ length (known_at r.reader.place).told };
}

impl ReadSide {
    /// A reader that was told of nothing.
    pub(crate) fn of(reader: SnapshotReader) -> ReadSide
        requires { (known_at reader.place).told ≡ [] }
        ensures { result ≡ known_at reader.place }
    {
        ReadSide { reader, told: 0 }
    }

    /// Answers a read operation after the list of commands that is published now, with the number of these commands for
    /// a token. The list begins with all that this reader has seen before, and with all that it was told of.
    #[tactic(auto, using(crate::proofs::Adding::reads_stay))]
    pub fn read(
        &mut self,
        alloc: Global,
        token: Token,
        op: &ReadOp,
    ) -> Result<(Reply, Token), ReadEnd>
        ensures reads { Reads self.old token.0 op.now result self.new }
        ensures sides { self.new.sides ≡ self.old.sides }
    {
        replace_with(&mut self.reader, op, |reader, op| {
            answer(reader, alloc, token, op)
        })
    }

    /// How many commands this reader was told of.
    pub fn told(&self) -> u64
        ensures { result ≡ length self.now.told }
    {
        self.told
    }

    /// Tells the reader of the list that is published now. Returns its length, and what was recorded of these sides.
    pub(crate) fn hear(&mut self) -> Option<(u64, Front)>
        ensures { Finds self.old result self.new }
    {
        let heard = replace_with(&mut self.reader, (), |reader, _| find(reader));
        if let Some((length, _)) = &heard {
            self.told = *length;
        }
        heard
    }
}

/// Enters, answers and leaves.
fn answer(
    reader: SnapshotReader,
    alloc: Global,
    token: Token,
    op: &ReadOp,
) -> (SnapshotReader, Result<(Reply, Token), ReadEnd>)
    ensures { Reads (known_at reader.place) token.0 op.now result.1 (known_at result.0.place) }
{
    match reader.enter_as::<Enter>() {
        Ok(reading) => {
            let told = reading.get().read(alloc, token, op);
            (reading.leave(), told)
        }
        Err(reader) => (reader, Err(ReadEnd::Closed)),
    }
}

/// Enters, and leaves with what it found.
fn find(reader: SnapshotReader) -> (SnapshotReader, Option<(u64, Front)>)
    ensures { Finds (known_at reader.place) result.1 (known_at result.0.place) }
{
    match reader.enter_as::<Hear>() {
        Ok(reading) => {
            let snapshot = reading.get();
            let found = (snapshot.length(), snapshot.front());
            (reading.leave(), Some(found))
        }
        Err(reader) => (reader, None),
    }
}
