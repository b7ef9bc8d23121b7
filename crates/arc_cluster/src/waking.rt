//! Five nodes that were loaded, tested together and woken.
ghost use Rattle.std.specs.Prelude.{◌≡◌, ◌≢◌, ◌<◌, ℕ, IfErr, OnOk};
ghost use Rattle.arc_bytes.specs.Five.{at};
ghost use Rattle.arc_node.specs.Node.{HasLimits, IsAsleep, IsInOrder, disk_in};
ghost use Rattle.arc_voting.specs.Journals.{journals_of};
ghost use Rattle.arc_voting.specs.Sound.{IsSound};
ghost use Rattle.arc_cluster.specs.Adopting.{AreAsleep, AreAwake, AreNumbered, EndsStarts, EndsTests, HaveOneLength, IsAwake, IsMixed, IsTest, IsUnsound, MayAllStart, MayStart, OnlyNamedFailed, StartFails, kept_in};
ghost use Rattle.arc_cluster.specs.Nodes.{AreInOrder, disks_in};
ghost use Rattle.arc_cluster.specs.Opening.{EachIsInOrder};

use crate::opening::OpenEnd;
use arc_bytes::Five;
use arc_data::Record;
use arc_disk::Disk;
use arc_node::{Node, Restart};
use arc_voting::{AuditEnd, audit};
use std::alloc::Global;

/// Looks whether the lists of all five have the same greatest length, from node 0 on.
fn check_lengths<D: Disk>(nodes: &Five<Node<D>>) -> Result<(), OpenEnd>
    ensures alike { OnOk result (HaveOneLength nodes.now) }
    ensures mixed { IfErr result (λ end. IsMixed nodes.now end) }
{
    let first = nodes.d0.max_slots();
    for node in 1..5u8 {
        let have = nodes.get(node).max_slots();
        if have != first {
            return Err(OpenEnd::Mixed { node, have, first });
        }
    }
    Ok(())
}

/// The entries that five nodes keep.
fn lists_of<D: Disk>(nodes: &Five<Node<D>>) -> Five<&[Record]>
    ensures { journals_of result ≡ kept_in nodes.now }
{
    Five {
        d0: nodes.d0.records(),
        d1: nodes.d1.records(),
        d2: nodes.d2.records(),
        d3: nodes.d3.records(),
        d4: nodes.d4.records(),
    }
}

/// Looks whether what five nodes keep is sound together.
fn check_sound<D: Disk>(alloc: Global, nodes: &Five<Node<D>>) -> Result<(), OpenEnd>
    requires limits { (node : ℕ) → node < 5 → HasLimits (at nodes.now node) }
    ensures sound { OnOk result (IsSound (kept_in nodes.now)) }
    ensures unsound { IfErr result (λ end. IsUnsound (kept_in nodes.now) end) }
{
    match audit(alloc, &lists_of(nodes)) {
        Ok(()) => Ok(()),
        Err(AuditEnd::Breach(breach)) => Err(OpenEnd::Breach(breach)),
        Err(AuditEnd::Memory) => Err(OpenEnd::Memory),
    }
}

/// Starts this node, which was loaded.
fn wake_one<D: Disk>(node: &mut Node<D>, number: u8) -> Result<(), OpenEnd>
    requires in_order { IsInOrder D.tells D.content D.may_leave node.old }
    requires asleep { IsAsleep node.old }
    ensures in_order { IsInOrder D.tells D.content D.may_leave node.new }
    ensures awake { OnOk result (IsAwake D.faults node.old node.new) }
    ensures end { IfErr result (λ end. StartFails D.faults number (disk_in node.old) (disk_in node.new) end) }
    ensures named { IfErr result (λ end. end ≢ OpenEnd.Disk number
        → D.faults (disk_in node.new) ≡ D.faults (disk_in node.old)) }
    ensures start { MayStart D.tells D.faults D.moment D.stops_in D.is_tame D.left_since node.old node.new }
{
    match node.wake() {
        Restart::Up { .. } => Ok(()),
        Restart::Full { .. } => Ok(()),
        Restart::Disk => Err(OpenEnd::Disk { node: number }),
        Restart::Memory => Err(OpenEnd::Memory),
        _ => unreachable!(),
    }
}

/// Starts five nodes that were loaded, from node 0 on.
fn wake_all<D: Disk>(nodes: &mut Five<Node<D>>) -> Result<(), OpenEnd>
    requires in_order { AreInOrder D.tells D.content D.may_leave nodes.old }
    requires asleep { AreAsleep nodes.old }
    ensures in_order { OnOk result (AreInOrder D.tells D.content D.may_leave nodes.new) }
    ensures awake { OnOk result (AreAwake D.faults nodes.old nodes.new 5) }
    ensures end { IfErr result (λ end. EndsStarts D.faults nodes.old nodes.new end) }
    ensures named { IfErr result (λ end. OnlyNamedFailed D.faults (disks_in nodes.old) (disks_in nodes.new) end) }
    ensures start { MayAllStart D.tells D.faults D.moment D.stops_in D.is_tame D.left_since nodes.old nodes.new }
{
    for node in 0..5u8 {
        wake_one(nodes.get_mut(node), node)?;
    }
    Ok(())
}

/// Tests five nodes that were loaded, and starts them where they pass.
pub(crate) fn start_all<D: Disk>(alloc: Global, nodes: &mut Five<Node<D>>) -> Result<(), OpenEnd>
    requires each { EachIsInOrder D.tells D.content D.may_leave nodes.old }
    requires asleep { AreAsleep nodes.old }
    requires numbered { AreNumbered nodes.old }
    ensures alike { OnOk result (HaveOneLength nodes.old) }
    ensures sound { OnOk result (IsSound (kept_in nodes.old)) }
    ensures in_order { OnOk result (AreInOrder D.tells D.content D.may_leave nodes.new) }
    ensures awake { OnOk result (AreAwake D.faults nodes.old nodes.new 5) }
    ensures end { IfErr result (λ end. EndsTests D.faults nodes.old nodes.new end) }
    ensures named { IfErr result (λ end. OnlyNamedFailed D.faults (disks_in nodes.old) (disks_in nodes.new) end) }
    ensures refused { IfErr result (λ end. IsTest end → nodes.new ≡ nodes.old) }
    ensures start { MayAllStart D.tells D.faults D.moment D.stops_in D.is_tame D.left_since nodes.old nodes.new }
{
    check_lengths(nodes)?;
    check_sound(alloc, nodes)?;
    wake_all(nodes)
}
