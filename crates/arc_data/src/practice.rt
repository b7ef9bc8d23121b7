//! Practice runs: how they are configured, what is kept of them, and what blocks them.
ghost use Rattle.std.specs.Prelude.{◌≡◌, IfOk};

use crate::copies::{copy_given_texts, copy_list, copy_texts};
use crate::{List, ResourceId, ShiftId, Text, ZoneName};
use arc_bytes::Memory;
use arc_window::Window;
use std::alloc::Global;

/// What ended a practice run before its 30 minutes were over.
#[derive(Clone, Copy, PartialEq, Eq)]
pub enum Ending {
    /// One of its outcome alarms was set red.
    Alarm,
    /// It was cancelled, or another shift came.
    Interrupt,
}

/// A practice run. It keeps the outcome alarms with which it started. Times are in milliseconds of list time.
#[derive(Drop)]
pub struct Run {
    pub id: ShiftId,
    pub resource: ResourceId,
    /// The zone from which traffic is moved away.
    pub away_from: ZoneName,
    pub comment: Text,
    pub start: u64,
    pub outcome_alarms: List<Text>,
    /// The first event that ended it, and when.
    pub ended: Option<(Ending, u64)>,
}

/// What doesn't let a practice run start, in the order in which it is looked for.
#[derive(Clone, Copy, PartialEq, Eq)]
pub enum BlockCause {
    BlockedDate,
    BlockedWindow,
    /// One of the blocking alarms is red.
    BlockingAlarm,
    /// One of the outcome alarms is red.
    OutcomeAlarm,
}

/// When practice runs of a resource don't start, and what makes them fail.
#[derive(Drop)]
pub struct PracticeConfig {
    /// Numbers of days from 1970-01-01 on.
    pub blocked_dates: List<u32>,
    pub blocked_windows: List<Window>,
    pub blocking_alarms: List<Text>,
    pub outcome_alarms: List<Text>,
}

/// A change of a configuration: what is given replaces.
#[derive(Drop)]
pub struct PracticeChange {
    pub blocked_dates: Option<List<u32>>,
    pub blocked_windows: Option<List<Window>>,
    pub blocking_alarms: Option<List<Text>>,
    pub outcome_alarms: Option<List<Text>>,
}

/// A resource's configuration of practice runs, as it is kept.
#[derive(Drop)]
pub struct Configured {
    pub resource: ResourceId,
    pub config: PracticeConfig,
}

impl PracticeConfig {
    /// The same again.
    pub fn copy(&self, alloc: Global) -> Result<PracticeConfig, Memory>
        ensures { IfOk result (λ config. config ≡ self.now) }
    {
        Ok(PracticeConfig {
            blocked_dates: self.blocked_dates.copy(alloc)?,
            blocked_windows: self.blocked_windows.copy(alloc)?,
            blocking_alarms: copy_texts(alloc, &self.blocking_alarms)?,
            outcome_alarms: copy_texts(alloc, &self.outcome_alarms)?,
        })
    }
}

impl PracticeChange {
    /// The same again.
    pub fn copy(&self, alloc: Global) -> Result<PracticeChange, Memory>
        ensures { IfOk result (λ change. change ≡ self.now) }
    {
        Ok(PracticeChange {
            blocked_dates: copy_list(alloc, &self.blocked_dates)?,
            blocked_windows: copy_list(alloc, &self.blocked_windows)?,
            blocking_alarms: copy_given_texts(alloc, &self.blocking_alarms)?,
            outcome_alarms: copy_given_texts(alloc, &self.outcome_alarms)?,
        })
    }
}
