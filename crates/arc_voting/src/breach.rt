//! How an audit ends that finds no sound journals.
ghost use Rattle.std.specs.Prelude.{◌≡◌, ◌<◌, ◌^◌};
ghost use Rattle.arc_voting.specs.Rules.{number_of};

use crate::Rule;

/// The first entry that breaks a rule, in the order of rule, node and place.
#[derive(Clone, Copy, Debug, Drop)]
pub struct Breach {
    /// The rule, 1 to 6.
    pub rule: u8,
    /// The node in whose journal the entry stands, 0 to 4.
    pub node: u8,
    /// The entry's place in that journal. An empty journal breaks rule 1 at place 0.
    pub place: u32,
}

impl Breach {
    /// The breach of this rule at this node and place.
    pub(crate) fn of(rule: Rule, node: u8, place: usize) -> Breach
        requires { place < 2 ^ 32 }
        ensures rule { result.rule ≡ number_of rule }
        ensures node { result.node ≡ node }
        ensures place { result.place ≡ place }
    {
        Breach {
            rule: rule.number(),
            node,
            place: place as u32,
        }
    }
}

/// Why an audit doesn't answer that the journals are sound.
#[derive(Clone, Copy, Debug, Drop)]
pub enum AuditEnd {
    /// They aren't: this is the first breach.
    Breach(Breach),
    /// There wasn't enough memory to tell. Every journal is well-formed.
    Memory,
}
