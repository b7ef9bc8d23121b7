//! Zonal shifts: what is kept of them, and how they are shown.

use crate::{ResourceId, ShiftId, Text, ZoneName};

/// What became of a shift.
#[derive(Clone, Copy, Debug, PartialEq, Eq)]
pub enum Status {
    /// It moves traffic away.
    Active,
    /// Its time is over.
    Expired,
    /// It was cancelled before its time was over.
    Canceled,
}

/// Whose shift moves traffic away from a zone.
#[derive(Clone, Copy, Debug, PartialEq, Eq)]
pub enum Kind {
    /// The customer started it.
    Customer,
    /// A zone is in autoshift.
    Autoshift,
    /// A practice run.
    PracticeRun,
}

/// A shift that the customer started. Times are in milliseconds of list time.
#[derive(Drop)]
pub struct Shift {
    pub id: ShiftId,
    pub resource: ResourceId,
    /// The zone from which traffic is moved away.
    pub away_from: ZoneName,
    pub comment: Text,
    pub start: u64,
    /// The first moment at which it is over.
    pub expiry: u64,
    /// When it was cancelled.
    pub canceled: Option<u64>,
}

/// A shift or a practice run as replies show it.
#[derive(Drop)]
pub struct ShiftItem {
    pub id: ShiftId,
    pub resource: ResourceId,
    pub away_from: ZoneName,
    pub comment: Text,
    pub start: u64,
    pub expiry: u64,
    pub status: Status,
    /// What became of a practice run; `None` for a shift of the customer.
    pub outcome: Option<Outcome>,
}

/// What became of a practice run.
#[derive(Clone, Copy, Debug, PartialEq, Eq)]
pub enum Outcome {
    /// It isn't over.
    Pending,
    /// Its 30 minutes are over.
    Succeeded,
    /// One of its outcome alarms was set red before.
    Failed,
    /// It was cancelled, or another shift came, before.
    Interrupted,
}
