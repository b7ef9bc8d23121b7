//! The endpoint's part of one ballot: which ballot it is, what is proposed in it, and whether the proposal was chosen.
//!
//! This is the proposer of Lamport, "Paxos Made Simple", section 2.2. Its one idea: a proposer that has promises of a
//! majority proposes the command of the highest vote that they tell, and its own command only where they tell none.
//!
//! A worked case with nodes 0 to 4. Node 0 took ballot 5: nodes 0, 1 and 2 promised, and told no vote. So node 0 proposed
//! its own command `a`, and nodes 0, 1 and 2 voted for it: `a` is chosen, though node 0 may have heard of no vote but its
//! own. Now node 1 wants to place `b`. It takes ballot 6, its least one above 5, and asks for promises. Any three nodes
//! that promise share a node with 0, 1 and 2, so that one of them tells the vote for `a` in ballot 5: node 1 proposes
//! `a`, and `b` has to wait for the next slot. Had it proposed `b`, two commands could have been chosen at one slot.
//! And where ballot 5 got but one vote, at node 0, then nodes 1, 2 and 3 may promise ballot 6 and tell none. Node 1
//! proposes `b`, and `a` can't be chosen in ballot 5 any more, since three nodes have promised not to vote in it.
//!
//! It stands on `arc_data` for commands and answers, on `arc_bytes` for five values, and on `arc_voting` for what sound
//! journals are. It is pure data: it knows no journal, no message's way and no rule of routing controls.
//!
//! The law that it keeps (`laws.rt`): where the counted promises stand in sound journals with the votes that they told,
//! the endpoint's vote for the proposal keeps the journals sound.
//!
//! What the caller owes: nodes are 0 to 4; a ballot that is shown is at most 2^63; statuses come before promises and
//! votes; and the endpoint's own answers are handed in with its own number.
#![tactic(auto)]

mod ballots;
mod highest;
mod laws;
mod majority;
mod proposer;

pub use laws::proposal_keeps_sound;
pub use proposer::Proposer;
