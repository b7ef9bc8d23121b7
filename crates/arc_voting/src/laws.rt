//! What sound journals promise, each law as a call that does nothing.
ghost use Rattle.arc_voting.specs.Journals.{Journals};
ghost use Rattle.arc_voting.specs.Sound.{IsSound};
ghost use Rattle.arc_voting.specs.Laws.{ChosenAreEqual, HaveOneHistory, IdsDiffer, LongestIsOne, EachBeginsTheLongest, LongestAreChosen, LongestOnlyGrows};
ghost use Rattle.arc_voting.specs.Growth.{SameAreSound, VotesStay, ChosenStay, ChosenHaveVotes, AppliedOnlyGrow};
ghost use Rattle.arc_voting.specs.Staying.{HandledGrow, StaysWhileTheyGrow, StayingIsLawful, NewVotesWereAskedFor, NoCommandBegins};
ghost use Rattle.arc_voting.specs.Order.{LawfulMailKeepsOrder, HandlingKeepsStarts, DrawnIdsAreNew, VotedAreInOrder, FirstStartsAreSound, NextStartKeepsSound, NextStartOnlyGrows};
ghost use Rattle.arc_voting.specs.Replies.{AnswersAreFacts, CountedStays, CountedVoteStands, VotedByThreeIsChosen, ToldAreChosen, AppliedAreChosen, ChosenAreApplied, LearningReaches, LearnIsAnswered, PromiseIsGiven, VoteIsGiven, NodeGivesItsVote};
ghost use Rattle.arc_voting.specs.Bounds.{PromisesAreBounded, LeastBallotIsLawful, BallotsFit};
ghost use Rattle.arc_voting.specs.Owning.{VotedIsAlone, AloneStays, UnappliedMayBegin, DrawnMayBegin, ProposalMayBegin};
ghost use Rattle.arc_voting.specs.Handled.{LawfulMailKeepsSound, HistoriesOnlyGrow, FrontsAreHandled};
ghost use Rattle.arc_voting.specs.Proposal.{ProposalKeepsSound, StandingVoteIsTheProposal};
ghost use Rattle.arc_voting.specs.Tails.{TopVoteIsInTail, VoteIsInTail, NoVotesAreInPlace, TurnsKeepVotesInPlace, StartsKeepVotesInPlace, FrontsKeepVotesInPlace, SoundVotesAreInPlace};

/// Two commands that are chosen at one slot of sound journals are equal.
pub fn chosen_are_equal()
    ensures { (js : Journals) → IsSound js → ChosenAreEqual js }
{}

/// Of the lists that two nodes of sound journals applied one begins the other, and no identifier comes twice in a list.
pub fn have_one_history()
    ensures begins { (js : Journals) → IsSound js → HaveOneHistory js }
    ensures ids { (js : Journals) → IsSound js → IdsDiffer js }
{}

/// Whatever part of lawful mail each node has handled, sound journals are sound still.
pub fn lawful_mail_keeps_sound()
    ensures { LawfulMailKeepsSound }
{}

/// Whatever mail a node handles, what it applied before begins what it has applied then.
pub fn histories_only_grow()
    ensures { HistoriesOnlyGrow }
{}

/// Each front of what a node has appended is what it keeps after some of the messages: as where a crash left no more.
pub fn fronts_are_handled()
    ensures { FrontsAreHandled }
{}

/// A vote for what the promises of three nodes leave to be proposed keeps sound journals sound; and where these promises
/// are the latest of their nodes and nothing follows the endpoint's, a vote that the endpoint holds in that ballot already
/// is for the proposal.
pub fn proposals_keep_sound()
    ensures sound { ProposalKeepsSound }
    ensures standing { StandingVoteIsTheProposal }
{}

/// Journals that are the same at the five nodes are sound together. Nodes that handle mail only append, and in journals
/// that grew each vote stands still, what was chosen is chosen, and what was applied begins what is.
pub fn journals_only_grow()
    ensures same { SameAreSound }
    ensures handled { HandledGrow }
    ensures votes { VotesStay }
    ensures chosen { ChosenStay }
    ensures voted { ChosenHaveVotes }
    ensures applied { AppliedOnlyGrow }
{}

/// A message that stays lawful is lawful to any node, beside any other mail, and for all later journals. A command gets its
/// first vote only where that is asked for, and never by mail that stays lawful, whatever part of it is handled.
pub fn mail_stays_lawful()
    ensures later { StaysWhileTheyGrow }
    ensures lawful { StayingIsLawful }
    ensures asked { NewVotesWereAskedFor }
    ensures begun { NoCommandBegins }
{}

/// Lawful mail keeps the ids of each node's present start in order. Where they are so, what the node draws now was never
/// voted for, and what it drew earlier in this start is lawful still.
pub fn ids_stay_in_order()
    ensures mail { LawfulMailKeepsOrder }
    ensures starts { HandlingKeepsStarts }
    ensures new { DrawnIdsAreNew }
    ensures voted { VotedAreInOrder }
{}

/// Five journals of a first start each are sound, with ids in order; and the next start of any node keeps them so, and
/// gives no command a vote.
pub fn starts_keep_sound()
    ensures first { FirstStartsAreSound }
    ensures next { NextStartKeepsSound }
    ensures grows { NextStartOnlyGrows }
{}

/// What each answer says of the journal of the node that gave it, before and after; that a counted promise is counted still
/// when more is appended; that three votes choose; and that what nodes of sound journals tell as closed is what was chosen.
pub fn answers_are_facts()
    ensures says { AnswersAreFacts }
    ensures counted { CountedStays }
    ensures stands { CountedVoteStands }
    ensures three { VotedByThreeIsChosen }
    ensures told { ToldAreChosen }
    ensures applied { AppliedAreChosen }
    ensures chosen { ChosenAreApplied }
{}

/// A node that is told the commands that it lacks reaches the slot behind them; there it gives the promise that is asked for
/// above its last one, and then the vote in that ballot.
pub fn nodes_give_their_votes()
    ensures reaches { LearningReaches }
    ensures learned { LearnIsAnswered }
    ensures promise { PromiseIsGiven }
    ensures vote { VoteIsGiven }
    ensures whole { NodeGivesItsVote }
{}

/// No promise of sound journals is above five times the number of promises, the least ballot above such may be asked for,
/// and every ballot that may be fits 63 bits.
pub fn ballots_are_bounded()
    ensures promises { PromisesAreBounded }
    ensures least { LeastBallotIsLawful }
    ensures fit { BallotsFit }
{}

/// A command of the present start of a node of sound journals may begin at its open slot where no other command was voted
/// for under its id and the node hasn't applied it, or where the node draws its id now. A command is alone with its id
/// where it has a vote, and stays so while no other command gets its first vote.
pub fn commands_may_begin()
    ensures voted { VotedIsAlone }
    ensures alone { AloneStays }
    ensures unapplied { UnappliedMayBegin }
    ensures drawn { DrawnMayBegin }
    ensures proposal { ProposalMayBegin }
{}

/// Each applied list of sound journals begins the longest one, which is one of them and holds chosen commands alone; and
/// where each only grew, so did that.
pub fn longest_list_only_grows()
    ensures one { LongestIsOne }
    ensures begins { EachBeginsTheLongest }
    ensures chosen { LongestAreChosen }
    ensures grows { LongestOnlyGrows }
{}

/// A list in which each vote stands at the slot that was open when it was given stays so, whatever message a node handles
/// and however often it starts; each front of it is such a list, and each of sound journals is. In it the votes at the open
/// slot stand behind the last entry that closes one.
pub fn votes_stay_in_place()
    ensures top { TopVoteIsInTail }
    ensures vote { VoteIsInTail }
    ensures none { NoVotesAreInPlace }
    ensures turns { TurnsKeepVotesInPlace }
    ensures starts { StartsKeepVotesInPlace }
    ensures fronts { FrontsKeepVotesInPlace }
    ensures sound { SoundVotesAreInPlace }
{}
