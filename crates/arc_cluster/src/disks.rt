//! The disks of five nodes.
ghost use Rattle.std.specs.Prelude.{◌≡◌};
ghost use Rattle.arc_cluster.specs.Nodes.{disks_in};

use arc_bytes::Five;
use arc_disk::Disk;
use arc_node::Node;

/// Gives back the disks of five nodes.
pub(crate) fn disks_of<D: Disk>(nodes: Five<Node<D>>) -> Five<D>
    ensures { result ≡ disks_in nodes }
{
    let Five { d0, d1, d2, d3, d4 } = nodes;
    Five {
        d0: d0.give_back(),
        d1: d1.give_back(),
        d2: d2.give_back(),
        d3: d3.give_back(),
        d4: d4.give_back(),
    }
}
