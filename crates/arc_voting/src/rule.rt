//! The six rules of sound journals.
ghost use Rattle.std.specs.Prelude.{◌≡◌};
ghost use Rattle.arc_voting.specs.Rules.{number_of};

/// A rule of sound journals. Each speaks of one entry.
#[derive(Clone, Copy, Debug, Drop)]
pub enum Rule {
    /// Well-formed journal: the entry fits those before it.
    V1,
    /// The ballot's owner voted too.
    V2,
    /// Every lower ballot is settled.
    V3,
    /// What is closed was chosen.
    V4,
    /// A command starts at the node of its id.
    V5,
    /// No id is chosen twice.
    V6,
}

impl Rule {
    /// The number of the rule, 1 to 6.
    pub fn number(self) -> u8
        ensures { result ≡ number_of self }
    {
        match self {
            Rule::V1 => 1,
            Rule::V2 => 2,
            Rule::V3 => 3,
            Rule::V4 => 4,
            Rule::V5 => 5,
            Rule::V6 => 6,
        }
    }
}
