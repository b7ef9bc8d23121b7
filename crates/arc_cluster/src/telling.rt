//! What a peer is told: the commands that it lacks.
ghost use Rattle.std.specs.Prelude.{◌≡◌, ◌≤◌, ◌<◌, [], OnOk};
ghost use Rattle.arc_data.specs.Entries.{closed_len};
ghost use Rattle.arc_node.specs.Node.{kept};
ghost use Rattle.arc_voting.specs.Lists.{applied};
ghost use Rattle.arc_voting.specs.Replies.{learns};
ghost use Rattle.arc_cluster.specs.Asking.{HasNoMail, IsMail, lacking, next_told};

use crate::work::{Work, put};
use arc_bytes::{Five, Memory};
use arc_data::Message;
use arc_disk::Disk;
use arc_node::Node;
use std::alloc::Global;

/// How many commands a peer is told in one exchange at most.
const MOST_TOLD: u32 = 16;

/// Puts the next commands of a node's list into the mail: from one slot on, below another one, and at most 16.
fn tell<D: Disk>(
    alloc: Global,
    own: &Node<D>,
    from: u32,
    slot: u32,
    mail: &mut Vec<Message>,
) -> Result<(), Memory>
    requires reached { slot ≤ closed_len (kept own.now) }
    requires lacking { from ≤ slot }
    requires none { mail.old.items ≡ [] }
    ensures { OnOk result (mail.new.items ≡ learns from (next_told (applied (kept own.now)) from slot)) }
{
    let count = MOST_TOLD.min(slot - from);
    for k in 0..count {
        let Some(command) = own.command_at(from + k) else {
            unreachable!()
        };
        let command = command.copy(alloc)?;
        put(
            mail,
            Message::Learn {
                slot: from + k,
                command,
            },
        )?;
    }
    Ok(())
}

/// Puts what a peer lacks into its mail, and nothing where it lacks nothing.
fn tell_peer<D: Disk>(
    alloc: Global,
    own: &Node<D>,
    work: &Work,
    peer: u8,
    mail: &mut Vec<Message>,
) -> Result<(), Memory>
    requires of_five { peer < 5 }
    requires reached { work.now.slot ≤ closed_len (kept own.now) }
    requires none { mail.old.items ≡ [] }
    ensures { OnOk result (mail.new.items ≡ lacking (applied (kept own.now)) work.now peer) }
{
    if !work.is_behind(peer) {
        return Ok(());
    }
    tell(alloc, own, *work.lengths.get(peer), work.slot, mail)
}

/// Puts what each peer lacks into its mail.
pub(crate) fn tell_peers<D: Disk>(
    alloc: Global,
    own: &Node<D>,
    work: &Work,
    mail: &mut Five<Vec<Message>>,
) -> Result<(), Memory>
    requires reached { work.now.slot ≤ closed_len (kept own.now) }
    requires none { HasNoMail mail.old }
    ensures { OnOk result (IsMail mail.new (lacking (applied (kept own.now)) work.now)) }
{
    tell_peer(alloc, own, work, 0, &mut mail.d0)?;
    tell_peer(alloc, own, work, 1, &mut mail.d1)?;
    tell_peer(alloc, own, work, 2, &mut mail.d2)?;
    tell_peer(alloc, own, work, 3, &mut mail.d3)?;
    tell_peer(alloc, own, work, 4, &mut mail.d4)
}
