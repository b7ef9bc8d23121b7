//! An engine that is started on five disks.
ghost use Rattle.std.specs.Prelude.{◌≡◌, ◌≤◌, ◌↔◌, [], true, IfOk, IfErr, MatchResult, OnOk};
ghost use Rattle.arc_bytes.specs.Counts.{HasRisen};
ghost use Rattle.arc_cluster.specs.Adopting.{AreOpened, EndsOpening, IsTest, NoneFailed, OnlyNamedFailed, OnlyStarted, OpensDisks, PassTests, WasRead, WereRead, read_as};
ghost use Rattle.arc_cluster.specs.Cluster as five;
ghost use Rattle.arc_cluster.specs.Cluster.{held_in};
ghost use Rattle.arc_cluster.specs.Nodes.{disks_in};
ghost use Rattle.arc_cluster.specs.Opening.{AreCreated, AreEmpty, EndsCreation};
ghost use Rattle.arc_cluster.specs.Since.{DisksSince};
ghost use Rattle.arc_engine.specs.Engine.{IsInOrder};

use crate::Engine;
use arc_bytes::{Failed, Five, Memory};
use arc_cluster::{Cluster, OpenEnd};
use arc_courier::Courier;
use arc_disk::Disk;
use arc_state::State;
use std::alloc::Global;

impl<D: Disk, C: Courier + Drop> Engine<D, C> {
    /// Starts an engine on five disks. Where all are empty, five nodes are created, for a list of this greatest length; else the
    /// disks have journals, which are tested and opened, and this number has no effect. Where a test fails, a disk fails or there
    /// is no memory, the disks are given back. Where not all were empty, each then reads as before or as its journal with the next
    /// start behind it, and none but the disk that is named has failed.
    pub fn start(
        alloc: Global,
        disks: Five<D>,
        courier: C,
        max_slots: u32,
    ) -> Result<Engine<D, C>, (Five<D>, OpenEnd)>
        requires some { 1 ≤ max_slots }
        requires most { max_slots ≤ 16384 }
        ensures in_order { IfOk result (λ made. IsInOrder D.tells D.content D.may_leave made) }
        ensures created { D.tells → AreEmpty D.content disks → IfOk result (λ made. AreCreated made.cluster.nodes max_slots) }
        ensures opened { D.tells → (AreEmpty D.content disks → ⊥) → IfOk result (λ made.
            AreOpened D.tells D.content D.faults disks made.cluster.nodes × PassTests D.content disks
            × OnlyStarted (read_as D.content disks) made.cluster.nodes) }
        ensures held { IfOk result (λ made. held_in made.cluster ≡ []) }
        ensures courier { IfOk result (λ made. made.cluster.courier ≡ courier) }
        ensures end { IfErr result (λ e. EndsOpening D.tells D.content D.faults disks e.0 e.1) }
        ensures named { D.tells → (AreEmpty D.content disks → ⊥) → IfErr result (λ e. OnlyNamedFailed D.faults disks e.0 e.1) }
        ensures disks { D.tells → (AreEmpty D.content disks → ⊥) → MatchResult result
            (λ made. OpensDisks D.tells D.content D.may_leave D.faults D.moment D.stops_in D.is_tame D.left_since disks (disks_in made.cluster.nodes))
            (λ e. OpensDisks D.tells D.content D.may_leave D.faults D.moment D.stops_in D.is_tame D.left_since disks e.0) }
        ensures complete { D.tells → PassTests D.content disks → IfErr result (λ e. IsTest e.1 → ⊥) }
        ensures create_complete { D.tells → AreEmpty D.content disks → IfErr result (λ e. IsTest e.1 → ⊥) }
        ensures refused { IfErr result (λ e. IsTest e.1 →
            WereRead D.tells D.content D.may_leave D.faults D.moment D.stops_in D.is_tame D.left_since disks e.0) }
        ensures since { MatchResult result
            (λ made. DisksSince D.faults D.stops_in D.is_tame disks (disks_in made.cluster.nodes))
            (λ e. DisksSince D.faults D.stops_in D.is_tame disks e.0) }
    {
        let Ok(state) = State::fresh(alloc) else {
            drop(courier);
            return Err((disks, OpenEnd::Memory));
        };
        match open(alloc, disks, courier, max_slots) {
            Ok(cluster) => Ok(Engine { cluster, state }),
            Err(end) => {
                drop(state);
                Err(end)
            }
        }
    }
}

/// Creates five nodes where all disks are empty, and opens their journals otherwise.
fn open<D: Disk, C: Courier + Drop>(
    alloc: Global,
    disks: Five<D>,
    courier: C,
    max_slots: u32,
) -> Result<Cluster<D, C>, (Five<D>, OpenEnd)>
    requires some { 1 ≤ max_slots }
    requires most { max_slots ≤ 16384 }
    ensures in_order { IfOk result (λ made. five.IsInOrder D.tells D.content D.may_leave made) }
    ensures created { D.tells → AreEmpty D.content disks → IfOk result (λ made. AreCreated made.nodes max_slots) }
    ensures opened { D.tells → (AreEmpty D.content disks → ⊥) → IfOk result (λ made.
        AreOpened D.tells D.content D.faults disks made.nodes × PassTests D.content disks
        × OnlyStarted (read_as D.content disks) made.nodes) }
    ensures held { IfOk result (λ made. held_in made ≡ []) }
    ensures courier { IfOk result (λ made. made.courier ≡ courier) }
    ensures end { IfErr result (λ e. EndsOpening D.tells D.content D.faults disks e.0 e.1) }
    ensures named { D.tells → (AreEmpty D.content disks → ⊥) → IfErr result (λ e. OnlyNamedFailed D.faults disks e.0 e.1) }
    ensures disks { D.tells → (AreEmpty D.content disks → ⊥) → MatchResult result
        (λ made. OpensDisks D.tells D.content D.may_leave D.faults D.moment D.stops_in D.is_tame D.left_since disks (disks_in made.nodes))
        (λ e. OpensDisks D.tells D.content D.may_leave D.faults D.moment D.stops_in D.is_tame D.left_since disks e.0) }
    ensures complete { D.tells → PassTests D.content disks → IfErr result (λ e. IsTest e.1 → ⊥) }
    ensures create_complete { D.tells → AreEmpty D.content disks → IfErr result (λ e. IsTest e.1 → ⊥) }
    ensures refused { IfErr result (λ e. IsTest e.1 →
        WereRead D.tells D.content D.may_leave D.faults D.moment D.stops_in D.is_tame D.left_since disks e.0) }
    ensures since { MatchResult result
        (λ made. DisksSince D.faults D.stops_in D.is_tame disks (disks_in made.nodes))
        (λ e. DisksSince D.faults D.stops_in D.is_tame disks e.0) }
{
    let mut disks = disks;
    match are_empty(&mut disks) {
        Ok(true) => Cluster::create(alloc, disks, courier, max_slots),
        Ok(false) => Cluster::adopt(alloc, disks, courier),
        Err(end) => {
            drop(courier);
            Err((disks, end))
        }
    }
}

/// Whether all five disks are empty. They are only read, from node 0 on to the first that isn't empty.
fn are_empty<D: Disk>(disks: &mut Five<D>) -> Result<bool, OpenEnd>
    ensures empty { D.tells → IfOk result (λ empty. (empty ≡ true) ↔ AreEmpty D.content disks.old) }
    ensures no_fault { OnOk result (NoneFailed D.faults disks.old disks.new) }
    ensures end { IfErr result (λ end. EndsCreation D.faults disks.old disks.new end) }
    ensures named { IfErr result (λ end. OnlyNamedFailed D.faults disks.old disks.new end) }
    ensures read { WereRead D.tells D.content D.may_leave D.faults D.moment D.stops_in D.is_tame D.left_since disks.old disks.new }
{
    for node in 0..5u8 {
        match is_empty(disks.get_mut(node), node) {
            Ok(true) => {}
            Ok(false) => return Ok(false),
            Err(end) => return Err(end),
        }
    }
    Ok(true)
}

/// Whether this node's disk is empty.
fn is_empty<D: Disk>(disk: &mut D, node: u8) -> Result<bool, OpenEnd>
    ensures empty { D.tells → IfOk result (λ empty. (empty ≡ true) ↔ (D.content disk.old ≡ [])) }
    ensures no_fault { OnOk result (D.faults disk.new ≡ D.faults disk.old) }
    ensures end { IfErr result (λ end. (end ≡ OpenEnd.Disk node) × HasRisen (D.faults disk.old) (D.faults disk.new)) }
    ensures read { WasRead D.tells D.content D.may_leave D.faults D.moment D.stops_in D.is_tame D.left_since disk.old disk.new }
{
    match disk.len() {
        Ok(0) => Ok(true),
        Ok(_) => Ok(false),
        Err(Failed) => Err(OpenEnd::Disk { node }),
    }
}
