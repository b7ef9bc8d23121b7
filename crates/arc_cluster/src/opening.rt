//! Five disks that are opened.
ghost use Rattle.std.specs.Prelude.{◌≡◌, ◌≤◌, IfErr, IfOk, MatchResult};
ghost use Rattle.arc_cluster.specs.Nodes.{disks_in};
ghost use Rattle.arc_cluster.specs.Opening.{AreCreated, AreEmpty, EachIsInOrder, EndsCreation, end_at};
ghost use Rattle.arc_cluster.specs.Since.{DisksSince};

use arc_bytes::Five;
use arc_disk::Disk;
use arc_node::{JournalEnd, Node};
use arc_voting::Breach;
use std::alloc::Global;

/// How an opening of five disks ends badly, in the order of tests.
#[derive(Clone, Copy)]
pub enum OpenEnd {
    /// This node's disk failed: its count of faults rose.
    Disk {
        node: u8,
    },
    /// This node's disk is empty, and no lesser node's is.
    Missing {
        node: u8,
    },
    /// The disk has no journal of this node. `place` is that of the first wrong byte.
    NotOurs {
        node: u8,
        place: u64,
    },
    /// An entry on this node's disk isn't what was written.
    Rotten {
        node: u8,
        place: u64,
        stored: [u8; 32],
        computed: [u8; 32],
    },
    /// The greatest length of this node's list is another one than that of node 0's.
    Mixed {
        node: u8,
        have: u32,
        first: u32,
    },
    /// The five journals aren't sound.
    Breach(Breach),
    /// There was no memory left.
    Memory,
}

/// Creates five nodes on five empty disks, from node 0 on. Where one can't be created, all disks are given back.
pub(crate) fn create_all<D: Disk>(
    alloc: Global,
    disks: Five<D>,
    max_slots: u32,
) -> Result<Five<Node<D>>, (Five<D>, OpenEnd)>
    requires some { 1 ≤ max_slots }
    requires most { max_slots ≤ 16384 }
    requires empty { D.tells → AreEmpty D.content disks }
    ensures in_order { IfOk result (λ nodes. EachIsInOrder D.tells D.content D.may_leave nodes) }
    ensures created { IfOk result (λ nodes. AreCreated nodes max_slots) }
    ensures answer { IfErr result (λ e. EndsCreation D.faults disks e.0 e.1) }
    ensures since { MatchResult result
        (λ nodes. DisksSince D.faults D.stops_in D.is_tame disks (disks_in nodes))
        (λ e. DisksSince D.faults D.stops_in D.is_tame disks e.0) }
{
    let Five { d0, d1, d2, d3, d4 } = disks;
    let n0 = match Node::create(alloc, d0, 0, max_slots) {
        Ok(n0) => n0,
        Err((d0, end)) => return Err((Five { d0, d1, d2, d3, d4 }, end_of(0, end))),
    };
    let n1 = match Node::create(alloc, d1, 1, max_slots) {
        Ok(n1) => n1,
        Err((d1, end)) => {
            let d0 = n0.give_back();
            return Err((Five { d0, d1, d2, d3, d4 }, end_of(1, end)));
        }
    };
    let n2 = match Node::create(alloc, d2, 2, max_slots) {
        Ok(n2) => n2,
        Err((d2, end)) => {
            let d0 = n0.give_back();
            let d1 = n1.give_back();
            return Err((Five { d0, d1, d2, d3, d4 }, end_of(2, end)));
        }
    };
    let n3 = match Node::create(alloc, d3, 3, max_slots) {
        Ok(n3) => n3,
        Err((d3, end)) => {
            let d0 = n0.give_back();
            let d1 = n1.give_back();
            let d2 = n2.give_back();
            return Err((Five { d0, d1, d2, d3, d4 }, end_of(3, end)));
        }
    };
    match Node::create(alloc, d4, 4, max_slots) {
        Ok(n4) => Ok(Five {
            d0: n0,
            d1: n1,
            d2: n2,
            d3: n3,
            d4: n4,
        }),
        Err((d4, end)) => {
            let d0 = n0.give_back();
            let d1 = n1.give_back();
            let d2 = n2.give_back();
            let d3 = n3.give_back();
            Err((Five { d0, d1, d2, d3, d4 }, end_of(4, end)))
        }
    }
}

/// How an opening of five disks ends where that of this node's ends so.
pub(crate) fn end_of(node: u8, end: JournalEnd) -> OpenEnd
    ensures { result ≡ end_at node end }
{
    match end {
        JournalEnd::Disk => OpenEnd::Disk { node },
        JournalEnd::NotOurs { place } => OpenEnd::NotOurs { node, place },
        JournalEnd::Rotten {
            place,
            stored,
            computed,
        } => OpenEnd::Rotten {
            node,
            place,
            stored,
            computed,
        },
        JournalEnd::Memory => OpenEnd::Memory,
    }
}
