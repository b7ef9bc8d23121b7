//! Five disks with journals that are opened.
ghost use Rattle.std.specs.Prelude.{◌≡◌, [], IfErr, IfOk, MatchResult};
ghost use Rattle.arc_cluster.specs.Adopting.{AreOpened, EndsOpening, IsTest, OnlyNamedFailed, OnlyStarted, OpensDisks, PassTests, WereRead, read_as};
ghost use Rattle.arc_cluster.specs.Cluster.{IsInOrder, held_in};
ghost use Rattle.arc_cluster.specs.Nodes.{AreInOrder, disks_in};

use crate::Cluster;
use crate::disks::disks_of;
use crate::held::Held;
use crate::loading::{find_missing, load_all};
use crate::opening::OpenEnd;
use crate::waking::start_all;
use arc_bytes::Five;
use arc_courier::Courier;
use arc_disk::Disk;
use arc_node::Node;
use std::alloc::Global;

impl<D: Disk, C: Courier + Drop> Cluster<D, C> {
    /// Opens five disks that have journals. All five are read and tested first, and then the nodes are started, from node 0
    /// on. Where a test fails, where a disk fails or there is no memory, the disks are given back. Where a test failed, they
    /// were only read.
    pub fn adopt(
        alloc: Global,
        disks: Five<D>,
        courier: C,
    ) -> Result<Cluster<D, C>, (Five<D>, OpenEnd)>
        ensures in_order { IfOk result (λ made. IsInOrder D.tells D.content D.may_leave made) }
        ensures opened { IfOk result (λ made. AreOpened D.tells D.content D.faults disks made.nodes) }
        ensures passed { D.tells → IfOk result (λ made. PassTests D.content disks) }
        ensures complete { D.tells → PassTests D.content disks → IfErr result (λ e. IsTest e.1 → ⊥) }
        ensures follow { D.tells → IfOk result (λ made. OnlyStarted (read_as D.content disks) made.nodes) }
        ensures held { IfOk result (λ made. held_in made ≡ []) }
        ensures courier { IfOk result (λ made. made.courier ≡ courier) }
        ensures end { IfErr result (λ e. EndsOpening D.tells D.content D.faults disks e.0 e.1) }
        ensures named { IfErr result (λ e. OnlyNamedFailed D.faults disks e.0 e.1) }
        ensures refused { IfErr result (λ e. IsTest e.1 →
            WereRead D.tells D.content D.may_leave D.faults D.moment D.stops_in D.is_tame D.left_since disks e.0) }
        ensures disks { MatchResult result
            (λ made. OpensDisks D.tells D.content D.may_leave D.faults D.moment D.stops_in D.is_tame D.left_since disks (disks_in made.nodes))
            (λ e. OpensDisks D.tells D.content D.may_leave D.faults D.moment D.stops_in D.is_tame D.left_since disks e.0) }
    {
        match adopt_all(alloc, disks) {
            Ok(nodes) => Ok(Cluster {
                nodes,
                courier,
                held: Held::none(alloc),
            }),
            Err(end) => {
                drop(courier);
                Err(end)
            }
        }
    }
}

/// Opens five disks that have journals, and starts their nodes.
fn adopt_all<D: Disk>(alloc: Global, disks: Five<D>) -> Result<Five<Node<D>>, (Five<D>, OpenEnd)>
    ensures in_order { IfOk result (λ nodes. AreInOrder D.tells D.content D.may_leave nodes) }
    ensures opened { IfOk result (λ nodes. AreOpened D.tells D.content D.faults disks nodes) }
    ensures passed { D.tells → IfOk result (λ nodes. PassTests D.content disks) }
    ensures follow { D.tells → IfOk result (λ nodes. OnlyStarted (read_as D.content disks) nodes) }
    ensures end { IfErr result (λ e. EndsOpening D.tells D.content D.faults disks e.0 e.1) }
    ensures named { IfErr result (λ e. OnlyNamedFailed D.faults disks e.0 e.1) }
    ensures refused { IfErr result (λ e. IsTest e.1 →
        WereRead D.tells D.content D.may_leave D.faults D.moment D.stops_in D.is_tame D.left_since disks e.0) }
    ensures disks { MatchResult result
        (λ nodes. OpensDisks D.tells D.content D.may_leave D.faults D.moment D.stops_in D.is_tame D.left_since disks (disks_in nodes))
        (λ e. OpensDisks D.tells D.content D.may_leave D.faults D.moment D.stops_in D.is_tame D.left_since disks e.0) }
{
    let mut disks = disks;
    match find_missing(&mut disks) {
        Ok(()) => {}
        Err(end) => return Err((disks, end)),
    }
    let mut nodes = match load_all(alloc, disks) {
        Ok(nodes) => nodes,
        Err(end) => return Err(end),
    };
    match start_all(alloc, &mut nodes) {
        Ok(()) => Ok(nodes),
        Err(end) => Err((disks_of(nodes), end)),
    }
}
