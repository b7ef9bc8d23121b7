//! Five disks that are read.
ghost use Rattle.std.specs.Prelude.{◌≡◌, ◌≢◌, ◌<◌, ℕ, [], None, IfErr, IfOk, MatchResult, OnErr, OnOk};
ghost use Rattle.arc_journal.specs.Image.{first_fault};
ghost use Rattle.arc_bytes.specs.Five.{at};
ghost use Rattle.arc_node.specs.Node.{disk_in};
ghost use Rattle.arc_cluster.specs.Adopting.{AreLoaded, AreThere, IsFirstEnd, IsLoaded, IsNotThere, IsRefused, NoneFailed, OnlyNamedFailed, WasRead, WereRead};
ghost use Rattle.arc_cluster.specs.Nodes.{disks_in};

use crate::opening::{OpenEnd, end_of};
use arc_bytes::{Failed, Five};
use arc_disk::Disk;
use arc_node::Node;
use std::alloc::Global;

/// Looks whether this node's disk has something on it.
fn look<D: Disk>(disk: &mut D, node: u8) -> Result<(), OpenEnd>
    ensures there { D.tells → OnOk result (D.content disk.old ≢ []) }
    ensures no_fault { OnOk result (D.faults disk.new ≡ D.faults disk.old) }
    ensures end { IfErr result (λ end. IsNotThere D.tells D.content D.faults node disk.old disk.new end) }
    ensures named { IfErr result (λ end. end ≢ OpenEnd.Disk node → D.faults disk.new ≡ D.faults disk.old) }
    ensures read { WasRead D.tells D.content D.may_leave D.faults D.moment D.stops_in D.is_tame D.left_since disk.old disk.new }
{
    match disk.len() {
        Ok(0) => Err(OpenEnd::Missing { node }),
        Ok(_) => Ok(()),
        Err(Failed) => Err(OpenEnd::Disk { node }),
    }
}

/// Looks whether each disk has something on it, from node 0 on.
pub(crate) fn find_missing<D: Disk>(disks: &mut Five<D>) -> Result<(), OpenEnd>
    ensures there { D.tells → OnOk result (AreThere D.content disks.old 5) }
    ensures no_fault { OnOk result (NoneFailed D.faults disks.old disks.new) }
    ensures end { IfErr result (λ end. IsFirstEnd (λ n. D.tells → D.content (at disks.old n) ≢ [])
        (IsNotThere D.tells D.content D.faults) disks.old disks.new end) }
    ensures named { IfErr result (λ end. OnlyNamedFailed D.faults disks.old disks.new end) }
    ensures read { WereRead D.tells D.content D.may_leave D.faults D.moment D.stops_in D.is_tame D.left_since disks.old disks.new }
{
    for node in 0..5u8 {
        look(disks.get_mut(node), node)?;
    }
    Ok(())
}

/// Loads this node from its disk.
fn load_one<D: Disk>(alloc: Global, disk: D, node: u8) -> Result<Node<D>, (D, OpenEnd)>
    requires of_five { node < 5 }
    ensures loaded { IfOk result (λ n. IsLoaded D.tells D.content D.may_leave D.faults disk n node) }
    ensures refused { IfErr result (λ e. IsRefused D.tells D.content D.faults node disk e.0 e.1) }
    ensures named { IfErr result (λ e. e.1 ≢ OpenEnd.Disk node → D.faults e.0 ≡ D.faults disk) }
    ensures read { MatchResult result
        (λ n. WasRead D.tells D.content D.may_leave D.faults D.moment D.stops_in D.is_tame D.left_since disk (disk_in n))
        (λ e. WasRead D.tells D.content D.may_leave D.faults D.moment D.stops_in D.is_tame D.left_since disk e.0) }
{
    match Node::load(alloc, disk, node) {
        Ok(n) => Ok(n),
        Err((disk, end)) => Err((disk, end_of(node, end))),
    }
}

/// Loads five nodes, from node 0 on. Where one can't be loaded, all disks are given back.
pub(crate) fn load_all<D: Disk>(
    alloc: Global,
    disks: Five<D>,
) -> Result<Five<Node<D>>, (Five<D>, OpenEnd)>
    ensures loaded { IfOk result (λ nodes. AreLoaded D.tells D.content D.may_leave D.faults disks nodes) }
    ensures refused { IfErr result (λ e. IsFirstEnd (λ n. D.tells → first_fault n (D.content (at disks n)) ≡ None)
        (IsRefused D.tells D.content D.faults) disks e.0 e.1) }
    ensures named { IfErr result (λ e. OnlyNamedFailed D.faults disks e.0 e.1) }
    ensures read { MatchResult result
        (λ nodes. WereRead D.tells D.content D.may_leave D.faults D.moment D.stops_in D.is_tame D.left_since disks (disks_in nodes))
        (λ e. WereRead D.tells D.content D.may_leave D.faults D.moment D.stops_in D.is_tame D.left_since disks e.0) }
{
    let Five { d0, d1, d2, d3, d4 } = disks;
    let n0 = match load_one(alloc, d0, 0) {
        Ok(n0) => n0,
        Err((d0, end)) => return Err((Five { d0, d1, d2, d3, d4 }, end)),
    };
    let n1 = match load_one(alloc, d1, 1) {
        Ok(n1) => n1,
        Err((d1, end)) => {
            let d0 = n0.give_back();
            return Err((Five { d0, d1, d2, d3, d4 }, end));
        }
    };
    let n2 = match load_one(alloc, d2, 2) {
        Ok(n2) => n2,
        Err((d2, end)) => {
            let d0 = n0.give_back();
            let d1 = n1.give_back();
            return Err((Five { d0, d1, d2, d3, d4 }, end));
        }
    };
    let n3 = match load_one(alloc, d3, 3) {
        Ok(n3) => n3,
        Err((d3, end)) => {
            let d0 = n0.give_back();
            let d1 = n1.give_back();
            let d2 = n2.give_back();
            return Err((Five { d0, d1, d2, d3, d4 }, end));
        }
    };
    match load_one(alloc, d4, 4) {
        Ok(n4) => Ok(Five {
            d0: n0,
            d1: n1,
            d2: n2,
            d3: n3,
            d4: n4,
        }),
        Err((d4, end)) => {
            let d0 = n0.give_back();
            let d1 = n1.give_back();
            let d2 = n2.give_back();
            let d3 = n3.give_back();
            Err((Five { d0, d1, d2, d3, d4 }, end))
        }
    }
}
