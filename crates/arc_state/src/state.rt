//! The state, which contracts see as its parts.
ghost use Rattle.std.specs.Prelude.{◌-◌, ◌<◌, ◌≤◌, ◌≡◌, ◌^◌, IfOk, OnErr};
ghost use Rattle.arc_data.specs.Valid.{IsValid};
ghost use Rattle.arc_plain.specs.State.{fresh as fresh_state};
ghost use Rattle.arc_state.specs.Reading.{AnswersNow};
ghost use Rattle.arc_state.specs.Standing.{StandsFor};
ghost use Rattle.arc_state.specs.State.{Applies, AreKept, count_of, time_of};

use crate::parts::Parts;
use crate::perform::perform;
use crate::read::{self, ReadOp};
use arc_batch::Controls;
use arc_bytes::Memory;
use arc_data::{Command, MAX_MS, Refusal, Reply};
use arc_panel::Panels;
use arc_practice::Practices;
use arc_rules::Rules;
use arc_shift::{Resources, Shifts};
use std::alloc::Global;
use std::marker::Model;

/// What a list of commands makes, done one after another.
#[derive(Drop)]
pub struct State {
    parts: Parts,
}

impl Model for State {
    ghost use Rattle.arc_state.specs.declared.parts.Parts.{Parts};
    ghost use Rattle.arc_state.specs.State.{AreKept};

    ghost Value = { Parts };

    ghost view = { λ s. s.parts };

    ghost invariant = { λ s. AreKept s.parts };
}

impl State {
    /// A cluster as it starts: one panel, nothing else, list time 0.
    pub fn fresh(alloc: Global) -> Result<State, Memory>
        ensures { IfOk result (λ state. StandsFor state fresh_state) }
    {
        Ok(State {
            parts: fresh_parts(alloc)?,
        })
    }

    /// Does a command: answers it and moves to the next state. After want of memory nothing has changed.
    pub fn apply(&mut self, alloc: Global, c: &Command) -> Result<Reply, Memory>
        requires valid { IsValid c.now.op }
        requires in_time { c.now.at_ms ≤ MAX_MS }
        requires room { count_of self.old < 2 ^ 64 - 2 }
        ensures applies { IfOk result (λ reply. Applies self.old c.now reply self.new) }
        ensures unchanged { OnErr result (self.new ≡ self.old) }
    {
        apply(alloc, &mut self.parts, c)
    }

    /// What the plain cluster answers to a read operation at the present list time, to a caller without a token. Nothing
    /// changes.
    pub fn answer_read(&self, alloc: Global, op: &ReadOp) -> Result<Reply, Memory>
        ensures { IfOk result (λ reply. AnswersNow op.now self.now reply) }
    {
        answer_read(alloc, &self.parts, op)
    }

    /// How many commands were given, refused ones included.
    pub fn count(&self) -> u64
        ensures { result ≡ count_of self.now }
    {
        self.parts.count
    }

    /// List time: the greatest time of the commands so far, in milliseconds, and 0 before the first.
    pub fn time(&self) -> u64
        ensures { result ≡ time_of self.now }
    {
        self.parts.time
    }
}

/// The parts as a cluster starts.
fn fresh_parts(alloc: Global) -> Result<Parts, Memory>
    ensures kept { IfOk result AreKept }
    ensures stands { IfOk result (λ parts. StandsFor parts fresh_state) }
{
    Ok(Parts {
        time: 0,
        count: 0,
        controls: Controls {
            panels: Panels::fresh(alloc)?,
            rules: Rules::fresh(alloc)?,
        },
        resources: Resources::fresh(alloc)?,
        shifts: Shifts::fresh(alloc)?,
        practices: Practices::fresh(alloc)?,
        shifts_drawn: 0,
    })
}

/// Sets list time and counts the command first, then tests its token, then does what it asks for.
fn apply(alloc: Global, parts: &mut Parts, c: &Command) -> Result<Reply, Memory>
    requires kept { AreKept parts.old }
    requires valid { IsValid c.now.op }
    requires in_time { c.now.at_ms ≤ MAX_MS }
    requires room { count_of parts.old < 2 ^ 64 - 2 }
    ensures kept { AreKept parts.new }
    ensures applies { IfOk result (λ reply. Applies parts.old c.now reply parts.new) }
    ensures unchanged { OnErr result (parts.new ≡ parts.old) }
{
    let time = parts.time;
    let place = parts.count;
    parts.time = time.max(c.at_ms);
    parts.count = place + 1;
    if c.token > place {
        return Ok(Reply::Refused(Refusal::TokenAhead {
            token: c.token,
            place,
        }));
    }
    match perform(alloc, parts, &c.op) {
        Ok(reply) => Ok(reply),
        Err(Memory) => {
            parts.time = time;
            parts.count = place;
            Err(Memory)
        }
    }
}

/// Answers a read operation at the present list time.
fn answer_read(alloc: Global, parts: &Parts, op: &ReadOp) -> Result<Reply, Memory>
    requires { AreKept parts.now }
    ensures { IfOk result (λ reply. AnswersNow op.now parts.now reply) }
{
    read::answer(alloc, parts, op)
}
