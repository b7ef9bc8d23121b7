//! A courier whose fates are chosen beforehand.
ghost use Rattle.std.specs.Prelude.{◌≡◌, ◌<◌, ◌≤◌, ℕ, IsTrue, length};
ghost use Rattle.arc_bytes.specs.Five.{at, with};
ghost use Rattle.arc_courier.specs.Courier.{Counts, GoesOnCounting, is_trouble};
ghost use Rattle.arc_courier.specs.Scripted.{after_fate, asked_in, fate_of, is_silent_in, troubles_in, unscripted, with_pattern};

use crate::peer::Peer;
use crate::{Courier, Fate};
use arc_bytes::Five;
use std::marker::Model;

/// A courier whose fates are chosen for each peer, beforehand: a pattern that comes once, or one that cycles. Where
/// none is left, the exchange happens.
#[derive(Drop)]
pub struct Scripted {
    peers: Five<Peer>,
}

impl Model for Scripted {
    ghost use Rattle.arc_bytes.specs.declared.five.Five.{Five as Peers};
    ghost use Rattle.arc_courier.specs.Scripted.{PlainPeer};

    ghost Value = { Peers PlainPeer };

    ghost view = { λ s. s.peers };
}

impl Scripted {
    /// A courier for which nothing is chosen yet.
    pub fn new() -> Scripted
        ensures { result ≡ unscripted }
    {
        Scripted {
            peers: Five {
                d0: Peer::new(),
                d1: Peer::new(),
                d2: Peer::new(),
                d3: Peer::new(),
                d4: Peer::new(),
            },
        }
    }

    /// Chooses the fates of a peer, below 5: 1 to 64 of them, which come once or cycle. Earlier ones are gone.
    pub fn set(&mut self, peer: u8, cycle: bool, fates: &[Fate])
        requires peer { peer < 5 }
        requires some { 1 ≤ length fates.now }
        requires most { length fates.now ≤ 64 }
        ensures { self.new ≡ with self.old peer (with_pattern cycle fates.now (at self.old peer)) }
    {
        self.peers.get_mut(peer).set(cycle, fates);
    }
}

impl Courier for Scripted {
    ghost troubles = { troubles_in };

    ghost asked = { asked_in };

    ghost is_silent = { is_silent_in };

    /// Gives the next fate that was chosen for a peer, or lets the exchange happen.
    fn fate(&mut self, peer: u8) -> Fate
        requires { peer < 5 }
        ensures troubles { Counts (troubles_in self.old) (troubles_in self.new) peer (is_trouble result) }
        ensures asked { GoesOnCounting (asked_in self.old) (asked_in self.new) peer }
        ensures silent { is_silent_in self.old peer → IsTrue (is_trouble result) }
        ensures stays_silent { (p : ℕ) → is_silent_in self.old p → is_silent_in self.new p }
        // besides what every courier promises
        ensures fate { result ≡ fate_of (at self.old peer) }
        ensures after { self.new ≡ with self.old peer (after_fate (at self.old peer)) }
    {
        self.peers.get_mut(peer).take()
    }
}
