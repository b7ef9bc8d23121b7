//! The fates of one peer.
ghost use Rattle.std.specs.Prelude.{◌≡◌, ◌≤◌, length};
ghost use Rattle.arc_courier.specs.Scripted.{after_fate, fate_of, with_pattern, without_pattern};

use crate::Fate;
use crate::courier::is_trouble;
use std::marker::Model;

/// The most fates of a pattern.
const MOST_FATES: usize = 64;

/// A pattern of fates, and what was counted.
#[derive(Drop)]
pub(crate) struct Peer {
    /// The fates of the pattern, and others behind them.
    fates: [Fate; MOST_FATES],
    /// How many the pattern has.
    len: usize,
    /// How many of them were given, of the present turn where the pattern cycles.
    given: usize,
    cycle: bool,
    troubles: u64,
    asked: u64,
}

impl Model for Peer {
    ghost use Rattle.std.specs.Prelude.{◌≡◌, ◌≤◌, length, take};
    ghost use Rattle.arc_courier.specs.Scripted.{PlainPeer, coming_of};

    ghost Value = { PlainPeer };

    ghost view = { λ p. record {
      coming = coming_of p.cycle p.given (take p.len p.fates);
      cycle = p.cycle;
      troubles = p.troubles;
      asked = p.asked;
    } };

    ghost invariant = { λ p. (p.given ≤ p.len) × (p.len ≤ 64) × (length p.fates ≡ 64) };
}

impl Peer {
    /// No pattern, and nothing counted.
    pub(crate) fn new() -> Peer
        ensures { result ≡ without_pattern }
    {
        Peer {
            fates: [Fate::Now; MOST_FATES],
            len: 0,
            given: 0,
            cycle: false,
            troubles: 0,
            asked: 0,
        }
    }

    /// Another pattern.
    pub(crate) fn set(&mut self, cycle: bool, fates: &[Fate])
        requires { length fates.now ≤ 64 }
        ensures { self.new ≡ with_pattern cycle fates.now self.old }
    {
        self.fates[..fates.len()].copy_from_slice(fates);
        self.len = fates.len();
        self.given = 0;
        self.cycle = cycle;
    }

    /// The next fate.
    pub(crate) fn take(&mut self) -> Fate
        ensures fate { result ≡ fate_of self.old }
        ensures after { self.new ≡ after_fate self.old }
    {
        let at = if self.cycle && self.given == self.len {
            0
        } else {
            self.given
        };
        self.asked = self.asked.saturating_add(1);
        if at >= self.len {
            return Fate::Now;
        }
        let fate = self.fates[at];
        self.given = at + 1;
        if is_trouble(fate) {
            self.troubles = self.troubles.saturating_add(1);
        }
        fate
    }
}
