//! The rule under which readers enter and the writer publishes.

use crate::known::Known;
use crate::snapshot::Snapshot;
use crate::taken::Step;
use atomic_table::{Join, Split};
use crossbeam_utils::rule::{Outcome, Protocol};
use left_right::reader::Reader;
use left_right::writer::Writer;

/// The published list begins with all that any reader has seen.
pub struct OneList;

impl Protocol<Snapshot, Known> for OneList {
    ghost use Rattle.arc_snapshot.specs.Rule.{Keeps, stranger};

    ghost holds = { Keeps };

    ghost first = { stranger };
}

/// A read enters.
pub(crate) struct Enter;

impl Outcome<Snapshot, Known> for Enter {
    ghost use Rattle.arc_snapshot.specs.Rule.{Entered};

    ghost then = { Entered };
}

/// A reader is told of what it finds.
pub(crate) struct Hear;

impl Outcome<Snapshot, Known> for Hear {
    ghost use Rattle.arc_snapshot.specs.Rule.{Heard};

    ghost then = { Heard };
}

/// The writer publishes.
pub(crate) struct Publish;

impl Outcome<Snapshot, Known> for Publish {
    ghost use Rattle.arc_snapshot.specs.Rule.{Published};

    ghost then = { Published };
}

/// The writer tells of which sides it is.
pub(crate) struct Name;

impl Split<Known> for Name {
    ghost left = { λ v. v };

    ghost right = { λ v. v };
}

impl Join<Known> for Name {
    ghost use Rattle.arc_snapshot.specs.Rule.{named, stranger};

    ghost both = { named };

    ghost spent = { stranger };
}

pub(crate) type SnapshotReader = Reader<Snapshot, Known, OneList>;

pub(crate) type SnapshotWriter = Writer<Snapshot, Step, Known, OneList>;
