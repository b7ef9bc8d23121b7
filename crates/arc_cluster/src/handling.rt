//! Nodes that handle their messages.
ghost use Rattle.std.specs.Prelude.{◌≡◌, None, OnOk};
ghost use Rattle.arc_node.specs.Node.{HasVotesInPlace, IsInOrder, IsSameNode, disk_in};
ghost use Rattle.arc_cluster.specs.Handling.{AllAnswer, AllHandle, AllMayHandle, AnswersAs, HandlesAll, MayBeHandled, MayHandle, lent_to, none_of_five};
ghost use Rattle.arc_cluster.specs.Moments.{AllHandled, AllLeaveFronts, LeaveSound, LeavesFronts};
ghost use Rattle.arc_cluster.specs.Since.{AllSince, Since};
ghost use Rattle.arc_cluster.specs.Nodes.{AreInOrder, AreSame};

use arc_bytes::{Five, Memory};
use arc_data::{Answer, Message};
use arc_disk::Disk;
use arc_node::{HandleEnd, Node};
use std::alloc::Global;

/// No answers.
pub(crate) fn no_answers() -> Five<Option<Answer>>
    ensures { result ≡ none_of_five }
{
    Five {
        d0: None,
        d1: None,
        d2: None,
        d3: None,
        d4: None,
    }
}

/// Lets a node handle its messages in order, and leaves its answer to the last one. A node that goes down, or that wasn't up,
/// answers none.
pub(crate) fn handle_all<D: Disk>(
    alloc: Global,
    node: &mut Node<D>,
    messages: &[Message],
    answer: &mut Option<Answer>,
) -> Result<(), Memory>
    requires may { MayHandle D.tells D.content D.may_leave node.old messages.now }
    requires none { answer.old ≡ None }
    ensures in_order { IsInOrder D.tells D.content D.may_leave node.new }
    ensures in_place { HasVotesInPlace node.new }
    ensures handles { HandlesAll D.faults node.old node.new messages.now }
    ensures answers { OnOk result (AnswersAs node.old node.new messages.now answer.new) }
    ensures any_moment { D.tells → LeavesFronts D.moment D.left_since node.old node.new messages.now }
    ensures since { Since D.faults D.stops_in D.is_tame (disk_in node.old) (disk_in node.new) }
    ensures same { IsSameNode node.old node.new }
{
    if !node.is_up() {
        return Ok(());
    }
    for message in messages {
        match node.handle(alloc, message) {
            HandleEnd::Answered(reply) => drop(answer.replace(reply)),
            HandleEnd::Down => {
                drop(answer.take());
                return Ok(());
            }
            HandleEnd::Memory => return Err(Memory),
        }
    }
    Ok(())
}

/// Lets the five nodes handle their mail, each by an exclusive part, and leaves the answer of each to its last message.
pub(crate) fn handle_each<D: Disk>(
    alloc: Global,
    nodes: &mut Five<Node<D>>,
    mail: &Five<&[Message]>,
    answers: &mut Five<Option<Answer>>,
) -> Result<(), Memory>
    requires in_order { AreInOrder D.tells D.content D.may_leave nodes.old }
    requires mail { MayBeHandled nodes.old (lent_to mail.now) }
    requires none { answers.old ≡ none_of_five }
    ensures in_order { AreInOrder D.tells D.content D.may_leave nodes.new }
    ensures handle { AllHandle D.faults nodes.old nodes.new (lent_to mail.now) }
    ensures answer { OnOk result (AllAnswer nodes.old nodes.new (lent_to mail.now) answers.new) }
    ensures any_moment { D.tells → LeaveSound D.moment D.left_since nodes.old nodes.new }
    ensures fronts { D.tells → AllLeaveFronts D.moment D.left_since nodes.old nodes.new (lent_to mail.now) }
    ensures since { AllSince D.faults D.stops_in D.is_tame nodes.old nodes.new }
    ensures same { AreSame nodes.old nodes.new }
{
    handle_in_turn(alloc, nodes, mail, answers)
}

/// Lets the five nodes handle their mail, from node 0 on.
fn handle_in_turn<D: Disk>(
    alloc: Global,
    nodes: &mut Five<Node<D>>,
    mail: &Five<&[Message]>,
    answers: &mut Five<Option<Answer>>,
) -> Result<(), Memory>
    requires may { AllMayHandle D.tells D.content D.may_leave nodes.old (lent_to mail.now) }
    requires none { answers.old ≡ none_of_five }
    ensures handled { AllHandled D.tells D.content D.may_leave D.faults D.moment D.stops_in D.is_tame
        D.left_since nodes.old nodes.new (lent_to mail.now) }
    ensures answer { OnOk result (AllAnswer nodes.old nodes.new (lent_to mail.now) answers.new) }
{
    handle_all(alloc, &mut nodes.d0, mail.d0, &mut answers.d0)?;
    handle_all(alloc, &mut nodes.d1, mail.d1, &mut answers.d1)?;
    handle_all(alloc, &mut nodes.d2, mail.d2, &mut answers.d2)?;
    handle_all(alloc, &mut nodes.d3, mail.d3, &mut answers.d3)?;
    handle_all(alloc, &mut nodes.d4, mail.d4, &mut answers.d4)
}
