//! What a proposal keeps, as a call that does nothing.
ghost use Rattle.arc_proposer.specs.Laws.{ProposalKeepsSound, StandingVoteIsTheProposal};

use arc_voting::proposals_keep_sound;

/// A vote of the endpoint for its proposal keeps sound journals sound; and where the counted promises are the latest of
/// their nodes and nothing follows the endpoint's, a vote that its journal has in that ballot already is for the proposal.
pub fn proposal_keeps_sound()
    ensures sound { ProposalKeepsSound }
    ensures standing { StandingVoteIsTheProposal }
{
    proposals_keep_sound()
}
