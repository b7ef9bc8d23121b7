//! The promises that are counted, and the highest vote that they told.
ghost use Rattle.std.specs.Prelude.{◌≡◌, ◌↔◌, ◌<◌, ℕ, List, ◌∷◌, IsTrue, Option};
ghost use Rattle.arc_bytes.specs.Five.{at};
ghost use Rattle.arc_data.specs.Entries.{told, better};
ghost use Rattle.arc_data.specs.declared.command.Command.{Command};
ghost use Rattle.arc_proposer.specs.Counting.{ByThreeWith, Has};
ghost use Rattle.arc_proposer.specs.Highest.{told_in, by_node, highest_told};

use crate::majority::by_three_with;
use arc_bytes::Five;
use arc_data::Command;

/// What a node's promise told: `None` where no promise of it is counted, and `Some(None)` where it told no vote.
pub type Told = Option<Option<(u64, Command)>>;

/// Whether the node's promise is counted.
fn is_counted(promise: &Told) -> bool
    ensures { IsTrue result ↔ Has promise.now }
{
    promise.is_some()
}

/// Whether at least three promises are counted, the endpoint's among them.
pub fn has_majority(promises: &Five<Told>, endpoint: u8) -> bool
    requires { endpoint < 5 }
    ensures { IsTrue result ↔ ByThreeWith (λ node. Has (at promises.now node)) endpoint }
{
    let counted = Five {
        d0: is_counted(&promises.d0),
        d1: is_counted(&promises.d1),
        d2: is_counted(&promises.d2),
        d3: is_counted(&promises.d3),
        d4: is_counted(&promises.d4),
    };
    by_three_with(&counted, endpoint)
}

/// The vote that a node's counted promise told.
fn vote_of(promise: &Told) -> Option<(u64, &Command)>
    ensures { told result ≡ told_in promise.now }
{
    match promise {
        Some(Some((ballot, command))) => Some((*ballot, command)),
        _ => None,
    }
}

/// Of two votes that of the higher ballot, and the former of equal ballots.
fn better<'a>(
    former: Option<(u64, &'a Command)>,
    later: Option<(u64, &'a Command)>,
) -> Option<(u64, &'a Command)>
    ensures { told result ≡ better (told former.entry) (told later.entry) }
{
    match (former, later) {
        (None, later) => later,
        (former, None) => former,
        (Some(former), Some(later)) => {
            if former.0 < later.0 {
                Some(later)
            } else {
                Some(former)
            }
        }
    }
}

/// The highest vote of a node and of those behind it.
fn from_node<'a>(
    promise: &'a Told,
    behind: Option<(u64, &'a Command)>,
) -> Option<(u64, &'a Command)>
    ensures { (others : List (Option (Option (ℕ × Command)))) → told behind.entry ≡ highest_told others →
        told result ≡ highest_told (promise.now ∷ others) }
{
    better(vote_of(promise), behind)
}

/// The vote of highest ballot that was told, and of equal ones that of the least node.
pub fn highest_told(promises: &Five<Told>) -> Option<(u64, &Command)>
    ensures { told result ≡ highest_told (by_node promises.now) }
{
    let from_4 = from_node(&promises.d4, None);
    let from_3 = from_node(&promises.d3, from_4);
    let from_2 = from_node(&promises.d2, from_3);
    let from_1 = from_node(&promises.d1, from_2);
    from_node(&promises.d0, from_1)
}
