//! A snapshot: one plain cluster, with the commands that made it.
ghost use Rattle.std.specs.Prelude.{◌≡◌, [], ◌∷◌, ◌++◌, length, IfOk, MatchResult};
ghost use Rattle.arc_snapshot.specs.After.{Tells};

use crate::ReadEnd;
use crate::known::Version;
use crate::record::Front;
use crate::taken::{Step, Taken};
use arc_bytes::Memory;
use arc_data::{Command, Reply};
use arc_state::{ReadOp, State};
use arc_token::Token;
use left_right::Absorb;
use std::alloc::{AllocError, Global};
use std::marker::Model;

/// As many commands as a snapshot takes: 2^64 - 2.
const MOST: u64 = u64::MAX - 1;

/// The plain cluster after some commands, with these commands. A contract sees the commands.
#[derive(Drop)]
pub struct Snapshot {
    alloc: Global,
    state: State,
    /// The commands.
    made: Vec<Command>,
    /// What was recorded when it was last marked, in proofs alone.
    front: Front,
}

impl Model for Snapshot {
    ghost use Rattle.arc_snapshot.specs.declared.known.Version.{Version};
    ghost use Rattle.arc_snapshot.specs.After.{IsAfter};

    ghost Value = { Version };

    ghost view = { λ s. record { commands = s.made.items; recorded = s.front.list; sides = s.front.sides } };

    ghost invariant = { λ s. IsAfter s.made.items s.state };
}

impl Snapshot {
    /// The cluster as it starts.
    pub(crate) fn fresh(alloc: Global, front: Front) -> Result<Snapshot, Memory>
        ensures { IfOk result (λ s. s ≡ record { commands = []; recorded = front.list; sides = front.sides }) }
    {
        Ok(Snapshot {
            alloc,
            state: State::fresh(alloc)?,
            made: Vec::new(alloc),
            front,
        })
    }

    /// How many commands made it.
    pub(crate) fn length(&self) -> u64
        ensures { result ≡ length self.now.commands }
    {
        self.state.count()
    }

    /// What was recorded when it was last marked.
    pub(crate) fn front(&self) -> Front
        ensures { (result.sides ≡ self.now.sides) × (result.list ≡ self.now.recorded) }
    {
        self.front.again()
    }

    /// Does one more command.
    fn run(&mut self, taken: &Taken) -> Result<(), AllocError>
        ensures { MatchResult result
            (λ _. self.new ≡ record self.old { commands = self.old.commands ++ taken.now ∷ [] })
            (λ _. self.new ≡ self.old) }
    {
        if self.state.count() >= MOST {
            return Err(AllocError);
        }
        let command = taken.command();
        keep(self.alloc, &mut self.made, command)?;
        match self.state.apply(self.alloc, command) {
            Ok(reply) => {
                drop(reply);
                Ok(())
            }
            Err(Memory) => {
                drop(self.made.pop());
                Err(AllocError)
            }
        }
    }

    /// Marks the copy with what is recorded.
    fn mark(&mut self, front: &Front)
        ensures { self.new ≡ record self.old { recorded = front.now.list; sides = front.now.sides } }
    {
        self.front = front.again();
    }

    /// Answers a read operation, where it isn't behind the token.
    pub(crate) fn read(
        &self,
        alloc: Global,
        token: Token,
        op: &ReadOp,
    ) -> Result<(Reply, Token), ReadEnd>
        ensures { Tells self.now.commands token.0 op.now result }
    {
        let have = self.length();
        if have < token.0 {
            return Err(ReadEnd::Behind {
                have,
                asked: token.0,
            });
        }
        match self.state.answer_read(alloc, op) {
            Ok(reply) => Ok((reply, Token(have))),
            Err(Memory) => Err(ReadEnd::Memory),
        }
    }
}

impl Absorb<Step> for Snapshot {
    type State = Version;

    ghost use Rattle.arc_snapshot.specs.Version.{done};

    ghost state = { λ s. s };

    ghost applied = { done };

    fn absorb_first(&mut self, operation: &Step, _other: &Snapshot) -> Result<(), AllocError> {
        match operation {
            Step::Do(taken) => self.run(taken),
            Step::Mark(front) => {
                self.mark(front);
                Ok(())
            }
        }
    }
}

/// Keeps a copy of a command.
fn keep(alloc: Global, made: &mut Vec<Command>, command: &Command) -> Result<(), AllocError>
    ensures { MatchResult result (λ _. made.new.items ≡ made.old.items ++ command.now ∷ [])
        (λ _. made.new.items ≡ made.old.items) }
{
    let Ok(copy) = command.copy(alloc) else {
        return Err(AllocError);
    };
    match made.push(copy) {
        Ok(()) => Ok(()),
        Err(refused) => {
            drop(refused);
            Err(AllocError)
        }
    }
}
