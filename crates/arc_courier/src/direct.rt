//! A courier that lets each exchange happen.
ghost use Rattle.std.specs.Prelude.{◌≡◌, None};
ghost use Rattle.arc_courier.specs.Courier.{Counts, GoesOnCounting, is_trouble};

use crate::{Courier, Fate};

/// A courier that lets each exchange happen: it meets no trouble, and is silent to nobody.
#[derive(Clone, Copy, Drop)]
pub struct Direct;

impl Courier for Direct {
    ghost troubles = { λ d peer. 0 };

    ghost asked = { λ d. None };

    ghost is_silent = { λ d peer. ⊥ };

    /// Lets the exchange happen.
    fn fate(&mut self, peer: u8) -> Fate
        ensures troubles { Counts (λ p. 0) (λ p. 0) peer (is_trouble result) }
        ensures asked { GoesOnCounting None None peer }
        // besides what every courier promises
        ensures now { result ≡ Fate.Now }
    {
        let _peer = peer;
        Fate::Now
    }
}
