//! The ballots of a node.
ghost use Rattle.std.specs.Prelude.{◌≡◌, ◌<◌, ◌≤◌, ◌%◌, ◌+◌, ◌^◌, ℕ};
ghost use Rattle.arc_proposer.specs.Ballots.{least_above};

/// The least ballot of the node above the one shown, which is at most 2^63. The node owns every fifth ballot: those
/// that leave its number as remainder by five.
#[tactic(auto, unfolding(crate::specs::Ballots::least_above))]
pub fn least_above(node: u8, shown: u64) -> u64
    requires of_five { node < 5 }
    requires in_range { shown ≤ 2 ^ 63 }
    ensures value { result ≡ least_above node shown }
    ensures owner { result % 5 ≡ node }
    ensures above { shown < result }
    ensures least { (ballot : ℕ) → ballot % 5 ≡ node → shown < ballot → result ≤ ballot }
    ensures near { result ≤ shown + 5 }
{
    let node = u64::from(node);
    (shown + 5 - node) / 5 * 5 + node
}
