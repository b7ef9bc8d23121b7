//! Worked ballots, and what is proposed and chosen in them.
ghost use Rattle.std.specs.Prelude.{◌<◌};
ghost use Rattle.arc_proposer.specs.Proposing.{HasNoneCounted};

use crate::named::{Name, command};
use arc_bytes::Memory;
use arc_data::Answer;
use arc_proposer::Proposer;
use std::alloc::Global;
use std::process::Abort;

/// A peer's answer to a status shows this ballot.
fn show(proposer: &mut Proposer, shown: u32)
    requires { HasNoneCounted proposer.old }
{
    let at = Answer::At {
        length: 0,
        ballot: u64::from(shown),
        known: None,
    };
    proposer.on_status(2, &at);
    drop(at);
}

/// The ballot of an endpoint that promised one ballot, and whose peer shows another.
fn ballot_of(node: u8, promise: u32, shown: u32) -> u64 {
    let own = command(Name(0, 1, 0, 0));
    let mut proposer = Proposer::begin(node.min(4), 0, own, u64::from(promise));
    show(&mut proposer, shown);
    let ballot = proposer.ballot();
    drop(proposer);
    ballot
}

/// The endpoint, the ballot that it promised, the one that a peer shows, and its ballot.
const BALLOTS: [(u8, u32, u32, u64); 13] = [
    // node 0 asks again and again, while its accepts are withheld
    (0, 0, 0, 5),
    (0, 5, 5, 10),
    (0, 10, 10, 15),
    (0, 15, 15, 20),
    (0, 20, 20, 25),
    (0, 25, 25, 30),
    (0, 30, 30, 35),
    (0, 35, 35, 40),
    (1, 40, 40, 41),
    (1, 41, 41, 46),
    (1, 0, 40, 41),
    (4, 9, 3, 14),
    (4, 0, 0, 4),
];

fn check_ballots(rt: &impl Abort, rows: &[(u8, u32, u32, u64)]) {
    for (node, promise, shown, ballot) in rows {
        assert_eq!(rt; ballot_of(*node, *promise, *shown), *ballot);
    }
}

#[test]
fn a_ballot_is_the_least_of_its_node_above_what_was_shown(rt: HostRuntime) {
    check_ballots(&rt, &BALLOTS);
}

/// A peer, and the ballot and the token of the vote that it tells with its promise.
type Told = (u8, Option<(u64, u64)>);

/// A peer promises slot 7 in a ballot.
fn promise(
    alloc: Global,
    proposer: &mut Proposer,
    peer: u8,
    ballot: u64,
    vote: Option<(u64, u64)>,
) -> Result<(), Memory>
    requires { peer < 5 }
{
    let told = Answer::Promise {
        slot: 7,
        ballot,
        vote: vote.map(|(ballot, token)| (ballot, command(Name(0, 1, 0, token)))),
    };
    let done = proposer.on_promise(alloc, peer, &told);
    drop(told);
    done
}

/// These peers promise slot 7 in a ballot, one after another.
fn promise_all(
    alloc: Global,
    proposer: &mut Proposer,
    ballot: u64,
    told: &[Told],
) -> Result<(), Memory> {
    for (peer, vote) in told {
        promise(alloc, proposer, (*peer).min(4), ballot, *vote)?;
    }
    Ok(())
}

/// An endpoint and the ballot in which it asks for promises of slot 7, what is told with them, and the token of what is
/// proposed. The endpoint's own command has the token 9.
type Proposal = (u8, u64, &'static [Told], Option<u64>);

/// The token of what a node proposes at slot 7 in a ballot of its own.
fn proposed(alloc: Global, node: u8, ballot: u64, told: &[Told]) -> Result<Option<u64>, Memory> {
    let shown = ballot.clamp(1, 99) - 1;
    let mut proposer = Proposer::begin(node.min(4), 7, command(Name(0, 1, 0, 9)), shown);
    let done = promise_all(alloc, &mut proposer, ballot, told);
    let token = proposer.proposal().map(|command| command.token);
    drop(proposer);
    done?;
    Ok(token)
}

const PROPOSALS: [Proposal; 8] = [
    // two promises are no majority
    (0, 5, &[(0, None), (1, Some((1, 10)))], None),
    // the endpoint's own promise is needed
    (0, 5, &[(1, None), (2, None), (3, None), (4, None)], None),
    (0, 5, &[(0, None), (2, None), (4, None)], Some(9)),
    // the vote of the highest ballot; of two the first node's
    (
        0,
        5,
        &[
            (0, Some((3, 10))),
            (1, Some((4, 11))),
            (2, None),
            (4, Some((1, 12))),
        ],
        Some(11),
    ),
    (
        0,
        5,
        &[(0, None), (3, Some((4, 13))), (4, Some((4, 14)))],
        Some(13),
    ),
    // the first answer of a peer counts
    (
        0,
        5,
        &[(0, None), (1, Some((1, 10))), (1, Some((3, 11))), (2, None)],
        Some(10),
    ),
    // promises that told no vote, though node 0 has voted in their ballot since: its own command is proposed, and that vote is
    // for another
    (0, 5, &[(0, None), (1, None), (2, None)], Some(9)),
    // a counted node has promised ballot 12 since, in which node 0 voted: its vote is proposed, and node 1, whose ballot it
    // is, holds one for another
    (
        1,
        11,
        &[(0, Some((12, 10))), (1, Some((11, 13))), (3, None)],
        Some(10),
    ),
];

fn check_proposals(rt: &(impl Abort + AllocGlobal), rows: &[Proposal]) {
    for (node, ballot, told, token) in rows {
        assert_eq!(rt; proposed(rt.alloc(), *node, *ballot, told), Ok(*token));
    }
}

#[test]
fn the_highest_told_vote_is_proposed(rt: HostRuntime) {
    check_proposals(&rt, &PROPOSALS);
}

/// A peer votes at a slot in a ballot, and whether the command is chosen then, at slot 7 in ballot 5 of node 0.
const VOTES: [(u8, u32, u64, bool); 7] = [
    (1, 7, 5, false),
    (2, 7, 5, false),
    (2, 7, 5, false),
    (0, 7, 0, false),
    (0, 6, 5, false),
    (3, 7, 5, false),
    (0, 7, 5, true),
];

fn check_votes(rt: &impl Abort, proposer: &mut Proposer, rows: &[(u8, u32, u64, bool)]) {
    for (peer, slot, ballot, is_chosen) in rows {
        let vote = Answer::Accepted {
            slot: *slot,
            ballot: *ballot,
        };
        proposer.on_accepted((*peer).min(4), &vote);
        drop(vote);
        assert_eq!(rt; proposer.is_chosen(), *is_chosen);
    }
}

#[test]
fn three_votes_in_the_ballot_choose(rt: HostRuntime) {
    let mut proposer = Proposer::begin(0, 7, command(Name(0, 1, 0, 9)), 4);
    check_votes(&rt, &mut proposer, &VOTES);
    drop(proposer);
}
