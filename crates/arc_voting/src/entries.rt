//! Votes in one list of entries.
ghost use Rattle.std.specs.Prelude.{◌≡◌, ◌↔◌, IsTrue};
ghost use Rattle.arc_voting.specs.Chosen.{HoldsVote, OnVote, IsVoteWith};
ghost use Rattle.arc_voting.specs.Formed.{IsOneCommand};
ghost use Rattle.arc_voting.specs.Ids.{VotesFor, HasNoDouble};
ghost use Rattle.arc_voting.specs.Parts.{VotesAt};

use arc_data::{Command, Equals, Record};

/// Whether this entry is that vote.
fn is_vote(entry: &Record, slot: u32, ballot: u64, command: &Command) -> bool
    ensures { IsTrue result ↔ (entry.now ≡ Record.Voted slot ballot command.now) }
{
    match entry {
        Record::Voted {
            slot: its_slot,
            ballot: its_ballot,
            command: its_command,
        } => *its_slot == slot && *its_ballot == ballot && its_command.equals(command),
        _ => false,
    }
}

/// Whether this vote stands among the entries.
pub fn holds_vote(entries: &[Record], slot: u32, ballot: u64, command: &Command) -> bool
    ensures { IsTrue result ↔ HoldsVote entries.now slot ballot command.now }
{
    entries
        .iter()
        .any(|entry| is_vote(entry, slot, ballot, command))
}

/// Whether some vote at this slot and ballot stands among the entries.
pub fn has_vote_at(entries: &[Record], slot: u32, ballot: u64) -> bool
    ensures { IsTrue result ↔ VotesAt entries.now slot ballot }
{
    for entry in entries {
        if let Record::Voted {
            slot: its_slot,
            ballot: its_ballot,
            ..
        } = entry
        {
            if *its_slot == slot && *its_ballot == ballot {
                return true;
            }
        }
    }
    false
}

/// Whether this entry is a vote for the command.
pub fn is_vote_for(entry: &Record, command: &Command) -> bool
    ensures { IsTrue result ↔ IsVoteWith entry.now (λ slot ballot d. d ≡ command.now) }
{
    match entry {
        Record::Voted {
            command: its_command,
            ..
        } => its_command.equals(command),
        _ => false,
    }
}

/// Whether some vote among the entries is for this command.
pub fn votes_for(entries: &[Record], command: &Command) -> bool
    ensures { IsTrue result ↔ VotesFor entries.now command.now }
{
    entries.iter().any(|entry| is_vote_for(entry, command))
}

/// Whether this entry is no vote at the slot and ballot for another command.
fn agrees(entry: &Record, slot: u32, ballot: u64, command: &Command) -> bool
    ensures { IsTrue result ↔
        OnVote entry.now (λ its_slot its_ballot d. its_slot ≡ slot → its_ballot ≡ ballot → d ≡ command.now) }
{
    match entry {
        Record::Voted {
            slot: its_slot,
            ballot: its_ballot,
            command: its_command,
        } => {
            if *its_slot != slot || *its_ballot != ballot {
                return true;
            }
            its_command.equals(command)
        }
        _ => true,
    }
}

/// Whether no vote among the entries is for another command at this slot and ballot.
pub fn is_one_command(entries: &[Record], slot: u32, ballot: u64, command: &Command) -> bool
    ensures { IsTrue result ↔ IsOneCommand entries.now slot ballot command.now }
{
    entries
        .iter()
        .all(|entry| agrees(entry, slot, ballot, command))
}

/// Whether this entry is no vote that gives the command's id to another one.
fn is_no_double(entry: &Record, command: &Command) -> bool
    ensures { IsTrue result ↔ OnVote entry.now (λ slot ballot d. d.id ≡ command.now.id → d ≡ command.now) }
{
    match entry {
        Record::Voted {
            command: its_command,
            ..
        } => {
            if !its_command.id.equals(&command.id) {
                return true;
            }
            its_command.equals(command)
        }
        _ => true,
    }
}

/// Whether no vote among the entries has the command's id and is for another one.
pub fn has_no_double(entries: &[Record], command: &Command) -> bool
    ensures { IsTrue result ↔ HasNoDouble entries.now command.now }
{
    entries.iter().all(|entry| is_no_double(entry, command))
}
