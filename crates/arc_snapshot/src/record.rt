//! The record of the commands that were taken over: one list for all sides, which only grows and stands in proofs alone.
ghost use Rattle.std.specs.Prelude.{◌≡◌, ◌⊎◌, ◌+◌, ◌<◌, ◌^◌, ◌++◌, ◌∷◌, [], length, true, MatchBool};
ghost use mathlib.Core.List.{IsPrefix};
ghost use Rattle.arc_snapshot.specs.Record.{HaveOne, Records};

use arc_data::Command;
use logbook::{Gain, Offer, Plain, Play, Rule, Seen, Start, Word};
use std::marker::Model;

/// The rule of the record: its word is the length of the list.
pub struct Counted;

impl Rule<Command, u64> for Counted {
    ghost use Rattle.std.specs.Prelude.{[]};
    ghost use base.Fml.{ftrue};
    ghost use Rattle.arc_snapshot.specs.Record.{IsCounted};

    ghost holds = { λ cells list. IsCounted cells list };

    ghost first = { [] };

    ghost hinted = { λ n list. Unit {0} };

    ghost shows = { λ list. [] };

    ghost keeps = { λ names list. ftrue };

    ghost moves = { λ ask before after answer. Unit {0} };
}

/// Callers trade nothing.
pub struct Nothing;

impl Gain<Command, u64> for Nothing {
    ghost use base.Fml.{ftrue};

    ghost after = { λ names about answer. ftrue };
}

/// A step that adds a command.
pub struct Add;

impl Play<Command, u64> for Add {
    ghost use Rattle.arc_snapshot.specs.Record.{Adds};

    ghost then = { Adds };
}

impl Plain<Command, Command, u64> for Add {
    ghost use Rattle.std.specs.Prelude.{None};

    ghost ask = { λ command. command };

    ghost state = { λ command. None };
}

/// A beginning of a record that was seen. It has no bytes.
#[derive(Drop)]
pub struct Front {
    seen: Seen<Command, u64, Counted>,
}

impl Model for Front {
    ghost use Rattle.arc_snapshot.specs.declared.known.Recorded.{Recorded};
    ghost use Rattle.arc_snapshot.specs.Record.{numbers};

    ghost Value = { Recorded };

    ghost view = { λ f. record { sides = numbers f.seen.book; list = f.seen.log } };
}

impl Front {
    /// The same again.
    pub(crate) fn again(&self) -> Front
        ensures { result ≡ self.now }
    {
        Front {
            seen: self.seen.again(),
        }
    }
}

/// The writer's end of a record. A contract sees which record it is, and its list.
#[derive(Drop)]
pub struct Record {
    word: Word<Command, u64, Counted>,
    seen: Seen<Command, u64, Counted>,
    count: u64,
    whole: bool,
}

impl Model for Record {
    ghost use Rattle.std.specs.Prelude.{◌≡◌, length};
    ghost use Rattle.arc_snapshot.specs.declared.known.Whole.{Whole};
    ghost use Rattle.arc_snapshot.specs.Record.{numbers, word_of};

    ghost Value = { Whole };

    ghost view = { λ r. record { sides = numbers r.seen.book; list = r.seen.log; whole = r.whole } };

    ghost invariant = { λ r. (r.word ≡ word_of r.seen.book) × (r.count ≡ length r.seen.log) };
}

impl Record {
    /// A record of no commands.
    pub(crate) fn open() -> Record
        ensures { (result.list ≡ []) × (result.whole ≡ true) }
    {
        let (seen, mut first, _second) = Seen::open(Start::alone(), 0, 0);
        Record {
            word: Word::tracked(0, &mut first),
            seen,
            count: 0,
            whole: true,
        }
    }

    /// What was recorded so far.
    pub(crate) fn front(&self) -> Front
        ensures { (result.sides ≡ self.now.sides) × (result.list ≡ self.now.list) }
    {
        Front {
            seen: self.seen.again(),
        }
    }

    /// Whether every command that was taken over is recorded.
    pub(crate) fn is_whole(&self) -> bool
        ensures { result ≡ self.now.whole }
    {
        self.whole
    }

    /// Records a command behind the others, as long as all were recorded.
    pub(crate) fn add(&mut self, command: &Command)
        requires { self.old.whole ≡ true → length self.old.list + 1 < 2 ^ 64 }
        ensures { Records self.old command.now self.new }
    {
        if self.whole {
            self.whole = self.try_add(command);
        }
    }

    /// Adds a command, and says whether it did. It does, but where the record is another's too.
    fn try_add(&mut self, command: &Command) -> bool
        requires { length self.old.list + 1 < 2 ^ 64 }
        ensures sides { self.new.sides ≡ self.old.sides }
        ensures list { MatchBool result (self.new.list ≡ self.old.list ++ command.now ∷ [])
            (IsPrefix self.old.list self.new.list) }
    {
        let mut offer: Offer<Command, u64, Counted, Nothing> = self
            .seen
            .plain::<Nothing, Command, Add>(command);
        let mut pen = self.seen.no_pen();
        let count = self.count;
        let found = self
            .word
            .compare_exchange::<Add, Nothing>(
                count,
                count + 1,
                &mut self.seen,
                &mut offer,
                &mut pen,
            );
        self.count = if found == count { count + 1 } else { found };
        found == count
    }

    /// What another has seen of this record, and what is recorded, begin one list.
    pub(crate) fn compare(&self, other: &Front)
        requires { (self.now.sides ≡ []) ⊎ (self.now.sides ≡ other.now.sides) }
        ensures { HaveOne other.now.list self.now.list }
    {
        let mut both = self.seen.again();
        both.learn(&other.seen);
    }
}
