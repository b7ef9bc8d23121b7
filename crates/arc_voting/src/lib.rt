//! Five journals: what their votes choose, and whether they are sound.
//!
//! Each node keeps a journal: how often it was started, which ballots it promised, what it voted for, and which command
//! closed each slot. A command is *chosen* at a slot where three of five journals hold the same vote for it. Five
//! journals are *sound* where six rules hold of every entry; `audit` decides that, and names the first entry that
//! breaks a rule. The rules are after Lamport, "Paxos Made Simple", section 2.2:
//!
//! - V1, well-formed journal: an entry fits those before it, and one ballot is used for one command.
//! - V2, the ballot's owner voted too: node `b % 5` owns ballot `b`.
//! - V3, every lower ballot is settled: three nodes voted for the same command in it, or never vote in it at all.
//! - V4, what is closed was chosen.
//! - V5, a command starts at the node of its id, and an id is one command's.
//! - V6, no id is chosen twice.
//!
//! `specs/` says the rules as facts of one entry (`Formed`, `Settled`, `Ids`, `Sound`), the table of what a node appends
//! and answers (`Turn`), which mail may be sent (`Lawful`), what an endpoint may propose (`Proposal`), and what an answer
//! says of the node that gave it (`Replies`).
//!
//! The laws of sound journals are calls that do nothing (`laws.rt`): one command is chosen at a slot, the applied lists are
//! one history, and neither lawful mail, however much of it is handled by whom, nor a vote for a proposal changes that.
//! Others are what five nodes are built on: identifiers stay in order, so that a drawn one is new; a message whose ground is
//! a vote or a chosen command stays lawful, however late it comes; and a node that has what it lacks gives its vote.
//!
//! The audit takes about n log n steps over journals that keep the rules on identifiers: an index of identifiers is filled
//! once, and each entry compared with it. Where that fails, the entries are gone through one by one for the first breach.
//! All the memory that it takes is that of `Tracks`, whose making names a breach of V1 before that.
//!
//! `Indexed` keeps the entries of one node with a table of the slots that they close, so that the closed length, the promise,
//! the command at a slot and the entries behind the last closed slot are known without a walk over them.
//!
//! It stands on `arc_data` for entries and on `arc_bytes` for five values. It knows no disk, no message's way and no
//! rule of routing controls.
//!
//! What the caller owes: a journal has fewer than 2^32 entries.
#![tactic(auto)]

mod applied;
mod breach;
mod breaches;
mod entries;
mod formed;
mod ids;
mod index;
mod indexed;
mod laws;
mod majority;
mod rule;
mod settled;
mod slot;
mod track;
mod tracks;

pub use applied::applied_at;
pub use breach::{AuditEnd, Breach};
pub use breaches::{audit, audit_with};
pub use entries::holds_vote;
pub use indexed::Indexed;
pub use laws::{
    answers_are_facts, ballots_are_bounded, chosen_are_equal, commands_may_begin,
    fronts_are_handled, have_one_history, histories_only_grow, ids_stay_in_order,
    journals_only_grow, lawful_mail_keeps_sound, longest_list_only_grows, mail_stays_lawful,
    nodes_give_their_votes, proposals_keep_sound, starts_keep_sound, votes_stay_in_place,
};
pub use majority::{by_three, chosen};
pub use rule::Rule;
pub use tracks::Tracks;
