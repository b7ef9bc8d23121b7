//! A courier, and what becomes of an exchange.
ghost use Rattle.std.specs.Prelude.{◌≡◌, ◌<◌, ℕ, Option, IsTrue, true};
ghost use Rattle.arc_courier.specs.Courier.{Counts, GoesOnCounting, is_trouble};

/// What becomes of one exchange with a peer.
#[derive(Clone, Copy, Debug, PartialEq, Eq)]
pub enum Fate {
    /// The peer handles the messages, and its answer comes.
    Now,
    /// The messages are kept and not handled. They may be delivered later; whatever is answered then goes to nobody.
    Later,
    /// The peer handles the messages, its answer comes, and copies of the messages are kept.
    Both,
    /// The peer handles the messages, and its answer is lost.
    Mute,
}

/// Decides what becomes of each exchange.
pub trait Courier {
    /// How often an exchange with each peer met trouble: its messages were kept alone, or its answer was lost.
    ghost troubles: { Self → ℕ → ℕ };

    /// How often each peer's fate was asked, where the courier tells it.
    ghost asked: { Self → Option (ℕ → ℕ) };

    /// Holds where no answer of this peer comes any more, as long as nothing but fates is asked of the courier.
    ghost is_silent: { Self → ℕ → Type 0 };

    /// Decides one exchange with a peer, below 5.
    fn fate(&mut self, peer: u8) -> Fate
        requires { peer < 5 }
        ensures troubles { Counts (troubles self.old) (troubles self.new) peer (is_trouble result) }
        ensures asked { GoesOnCounting (asked self.old) (asked self.new) peer }
        ensures silent { is_silent self.old peer → IsTrue (is_trouble result) }
        ensures stays_silent { (p : ℕ) → is_silent self.old p → is_silent self.new p };
}

/// Whether an exchange meets trouble: its messages are kept alone, or its answer is lost.
pub(crate) fn is_trouble(fate: Fate) -> bool
    ensures { result ≡ is_trouble fate }
{
    matches!(fate, Fate::Later | Fate::Mute)
}
