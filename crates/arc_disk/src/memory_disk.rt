//! A disk in memory, whose failures are chosen.
ghost use Rattle.std.specs.Prelude.{◌≡◌, ◌≤◌, ◌+◌, ◌↔◌, [], List, ℕ, None, Some, drop, is_err, length, take, IfOk, IsErr, IsErrOf, OnOk};
ghost use Rattle.std.proofs.Common.{inl};
ghost use Rattle.arc_bytes.specs.Counts.{next_count};
ghost use Rattle.arc_disk.specs.Calls.{IsCall, IsNoCall, has_failed};
ghost use Rattle.arc_disk.specs.Disk.{Crashes, Elapses, IsUntouched, Keeps, Only, TearsOnly, Torn, written};
ghost use Rattle.arc_disk.specs.History.{IsInTime, ticked};
ghost use Rattle.arc_disk.specs.MemoryDisk.{IsAnswerOf, IsUnused, NoneFails, after_arm, after_crash, after_idle, after_sync, after_write, begun, content_of, disk_stops_in, faults_of, is_failure, left_since_of, may_leave_of, moment_of, next_turn};
ghost use Rattle.arc_disk.specs.Laws.{only_now_in_memory, reads_as_left_in_memory, since_earlier_in_memory};

use crate::history::History;
use crate::schedule::{Arming, Schedule, Turn};
use crate::{Disk, Rig, WriteEnd};
use arc_bytes::{Failed, Memory};
use std::alloc::Global;

/// A disk in memory that tells everything, and of which chosen device calls fail.
///
/// It keeps each write with its bytes, and each sync and crash, from which it follows what a crash at any moment
/// might have left.
#[derive(Drop)]
pub struct MemoryDisk {
    history: History,
    schedule: Schedule,
}

impl MemoryDisk {
    /// An empty disk. The device calls with these numbers, counted from 0, fail.
    pub fn new(alloc: Global, failing: Vec<u64>) -> MemoryDisk
        ensures content { content_of result ≡ [] }
        ensures durable { Only (content_of result) (may_leave_of result) }
        ensures unused { IsUnused result failing.items }
        ensures tame { failing.items ≡ [] → NoneFails result }
    {
        MemoryDisk {
            history: History::new(alloc),
            schedule: Schedule::new(failing),
        }
    }

    /// A disk on which these bytes are, all of them synced. The device calls with these numbers, counted from 0, fail.
    pub fn from_bytes(
        alloc: Global,
        bytes: Vec<u8>,
        failing: Vec<u64>,
    ) -> Result<MemoryDisk, Memory>
        ensures content { IfOk result (λ d. content_of d ≡ bytes.items) }
        ensures durable { IfOk result (λ d. Only (content_of d) (may_leave_of d)) }
        ensures unused { IfOk result (λ d. IsUnused d failing.items) }
        ensures tame { failing.items ≡ [] → IfOk result NoneFails }
    {
        Ok(MemoryDisk {
            history: History::from_bytes(alloc, bytes)?,
            schedule: Schedule::new(failing),
        })
    }

    /// What a read gives. This is no device call.
    pub fn bytes(&self) -> &[u8]
        ensures { result.now ≡ content_of self.now }
    {
        self.history.content()
    }

    /// A device call begins: the clock moves on, and a call that was chosen to fail is counted.
    fn turn(&mut self) -> Turn
        ensures turn { result ≡ next_turn self.old }
        ensures begun { self.new ≡ begun self.old }
        ensures in_time { IsInTime self.old.history.clock self.old.history.events }
        ensures clock_later { moment_of self.old ≤ next_count (moment_of self.old) }
        ensures count_later { faults_of self.old ≤ next_count (faults_of self.old) }
    {
        let turn = self.schedule.turn(self.history.clock());
        self.history.tick();
        turn
    }

    /// A device call that changes no byte.
    fn begin(&mut self) -> Result<(), Failed>
        ensures answer { is_err result ≡ is_failure (next_turn self.old) }
        ensures after { self.new ≡ after_idle self.old }
        ensures ticked { self.new.history ≡ ticked self.old.history }
        ensures in_time { IsInTime self.old.history.clock self.old.history.events }
        ensures clock_later { moment_of self.old ≤ next_count (moment_of self.old) }
        ensures kept { Keeps content_of may_leave_of self.old self.new }
        ensures time { Elapses moment_of may_leave_of left_since_of self.old self.new }
        ensures call { IsCall moment_of faults_of disk_stops_in NoneFails self.old self.new (is_err result) }
        ensures stopped { disk_stops_in self.old ≡ Some 0 → IsErr result }
    {
        match self.turn() {
            Turn::Goes => Ok(()),
            Turn::Stops => {
                self.schedule.stop();
                Err(Failed)
            }
            Turn::Fails => Err(Failed),
        }
    }
}

impl Disk for MemoryDisk {
    ghost tells = { Unit {0} };

    ghost content = { content_of };

    ghost may_leave = { may_leave_of };

    ghost left_since = { left_since_of };

    ghost moment = { moment_of };

    ghost faults = { faults_of };

    ghost stops_in = { disk_stops_in };

    ghost is_tame = { NoneFails };

    ghost reads_as_left = { λ d told. reads_as_left_in_memory d.history };

    ghost counts_now = { λ d t image told le now. inl now };

    ghost only_now = { λ d image told left. only_now_in_memory d.history image left };

    ghost since_earlier = { λ d t u image told le left. since_earlier_in_memory d.history t u image le left };

    fn len(&mut self) -> Result<u64, Failed>
        ensures length { IfOk result (λ n. n ≡ length (content_of self.old)) }
        ensures kept { Keeps content_of may_leave_of self.old self.new }
        ensures time { Elapses moment_of may_leave_of left_since_of self.old self.new }
        ensures call { IsCall moment_of faults_of disk_stops_in NoneFails self.old self.new (is_err result) }
        ensures stopped { disk_stops_in self.old ≡ Some 0 → IsErr result }
        // It fails where the disk stops or has stopped, and at the chosen calls.
        ensures fails { is_err result ≡ is_failure (next_turn self.old) }
        ensures after { self.new ≡ after_idle self.old }
    {
        match self.begin() {
            Ok(()) => Ok(self.history.content().len() as u64),
            Err(Failed) => Err(Failed),
        }
    }

    fn read_at(&mut self, at: u64, buf: &mut [u8]) -> Result<(), Failed>
        requires { at + length buf.old ≤ length (content_of self.old) }
        ensures filled { OnOk result (buf.new ≡ take (length buf.old) (drop at (content_of self.old))) }
        ensures kept { Keeps content_of may_leave_of self.old self.new }
        ensures time { Elapses moment_of may_leave_of left_since_of self.old self.new }
        ensures call { IsCall moment_of faults_of disk_stops_in NoneFails self.old self.new (is_err result) }
        ensures stopped { disk_stops_in self.old ≡ Some 0 → IsErr result }
        // It fails where the disk stops or has stopped, and at the chosen calls.
        ensures fails { is_err result ≡ is_failure (next_turn self.old) }
        ensures after { self.new ≡ after_idle self.old }
    {
        match self.begin() {
            Ok(()) => {
                let from = &self.history.content()[at as usize..];
                buf.copy_from_slice(&from[..buf.len()]);
                Ok(())
            }
            Err(Failed) => Err(Failed),
        }
    }

    fn write_at(&mut self, at: u64, bytes: &[u8]) -> Result<(), WriteEnd>
        requires { at ≤ length (content_of self.old) }
        ensures written { OnOk result (content_of self.new ≡ written (content_of self.old) at bytes.now) }
        ensures torn { Torn at (length bytes.now) (content_of self.old) (content_of self.new) }
        ensures crash { TearsOnly at (length bytes.now) (may_leave_of self.old) (may_leave_of self.new) }
        ensures memory { IsErrOf result WriteEnd.Memory → IsUntouched content_of may_leave_of self.old self.new }
        ensures time { Elapses moment_of may_leave_of left_since_of self.old self.new }
        ensures call { IsCall moment_of faults_of disk_stops_in NoneFails self.old self.new (has_failed result) }
        ensures stopped { disk_stops_in self.old ≡ Some 0 → IsErr result }
        // It fails where the disk stops or has stopped, and at the chosen calls. What it writes in a stop waits too.
        ensures fails { IsAnswerOf (next_turn self.old) result }
        ensures after { self.new ≡ after_write self.old result at bytes.now }
    {
        let turn = self.turn();
        if turn == Turn::Fails {
            return Err(WriteEnd::Failed);
        }
        let Ok(()) = self.history.write(at as usize, bytes) else {
            return Err(WriteEnd::Memory);
        };
        if turn == Turn::Stops {
            self.schedule.stop();
            return Err(WriteEnd::Failed);
        }
        Ok(())
    }

    fn sync(&mut self) -> Result<(), Failed>
        ensures durable { OnOk result (Only (content_of self.old) (may_leave_of self.new)) }
        ensures kept { Keeps content_of may_leave_of self.old self.new }
        ensures time { Elapses moment_of may_leave_of left_since_of self.old self.new }
        ensures call { IsCall moment_of faults_of disk_stops_in NoneFails self.old self.new (is_err result) }
        ensures stopped { disk_stops_in self.old ≡ Some 0 → IsErr result }
        // It fails where the disk stops or has stopped, and at the chosen calls.
        ensures fails { is_err result ≡ is_failure (next_turn self.old) }
        ensures after { self.new ≡ after_sync self.old }
    {
        match self.begin() {
            Ok(()) => {
                self.history.sync();
                Ok(())
            }
            Err(Failed) => Err(Failed),
        }
    }

    fn faults(&self) -> u64 {
        self.schedule.faults
    }
}

impl Rig for MemoryDisk {
    ghost armed = { λ old calls fill new. new ≡ after_arm old calls fill };

    ghost crashed = { λ old new. new ≡ after_crash old };

    fn arm(&mut self, calls: u32, fill: u8)
        ensures armed { self.new ≡ after_arm self.old calls fill }
        ensures stop { disk_stops_in self.new ≡ Some calls }
        ensures untouched { IsUntouched content_of may_leave_of self.old self.new }
        ensures since { (t : ℕ) (image : List ℕ) → left_since_of self.new t image ↔ left_since_of self.old t image }
        ensures no_call { IsNoCall moment_of faults_of NoneFails self.old self.new }
    {
        self.schedule.arming = Arming::Armed { calls, fill };
    }

    fn crash(&mut self)
        ensures crashed { self.new ≡ after_crash self.old }
        ensures stop { disk_stops_in self.new ≡ None }
        ensures crashes { Crashes content_of may_leave_of self.old self.new }
        ensures time { Elapses moment_of may_leave_of left_since_of self.old self.new }
        ensures no_call { IsNoCall moment_of faults_of NoneFails self.old self.new }
    {
        self.history.crash(self.schedule.fill());
        self.schedule.arming = Arming::Unarmed;
    }
}
