//! What a proposer counts of the answers of five nodes.
ghost use Rattle.std.specs.Prelude.{◌≡◌, ◌<◌, OnErr, OnOk};
ghost use Rattle.arc_cluster.specs.Counted.{HasCountedPromises, HasCountedVotes, IsSameBallot, with_promised, with_voted};

use arc_bytes::{Five, Memory};
use arc_data::Answer;
use arc_proposer::Proposer;
use std::alloc::Global;

/// Counts the promises among the answers. Where memory is wanting, some of them may be counted.
pub(crate) fn count_promises(
    alloc: Global,
    proposer: &mut Proposer,
    answers: &Five<Option<Answer>>,
) -> Result<(), Memory>
    ensures same { IsSameBallot proposer.old proposer.new }
    ensures counted { OnOk result (HasCountedPromises proposer.old proposer.new answers.now) }
{
    count_promise(alloc, proposer, 0, &answers.d0)?;
    count_promise(alloc, proposer, 1, &answers.d1)?;
    count_promise(alloc, proposer, 2, &answers.d2)?;
    count_promise(alloc, proposer, 3, &answers.d3)?;
    count_promise(alloc, proposer, 4, &answers.d4)
}

/// Counts the promise of a node, if it gave one.
fn count_promise(
    alloc: Global,
    proposer: &mut Proposer,
    node: u8,
    answer: &Option<Answer>,
) -> Result<(), Memory>
    requires of_five { node < 5 }
    ensures ok { OnOk result (proposer.new ≡ with_promised proposer.old node answer.now) }
    ensures memory { OnErr result (proposer.new ≡ proposer.old) }
{
    match answer {
        Some(answer) => proposer.on_promise(alloc, node, answer),
        None => Ok(()),
    }
}

/// Counts the votes among the answers.
pub(crate) fn count_votes(proposer: &mut Proposer, answers: &Five<Option<Answer>>)
    ensures counted { HasCountedVotes proposer.old proposer.new answers.now }
{
    count_vote(proposer, 0, &answers.d0);
    count_vote(proposer, 1, &answers.d1);
    count_vote(proposer, 2, &answers.d2);
    count_vote(proposer, 3, &answers.d3);
    count_vote(proposer, 4, &answers.d4);
}

/// Counts the vote of a node, if it gave one.
fn count_vote(proposer: &mut Proposer, node: u8, answer: &Option<Answer>)
    requires of_five { node < 5 }
    ensures { proposer.new ≡ with_voted proposer.old node answer.now }
{
    if let Some(answer) = answer {
        proposer.on_accepted(node, answer);
    }
}
