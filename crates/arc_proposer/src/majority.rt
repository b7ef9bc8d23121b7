//! Three of five nodes, the endpoint among them.
ghost use Rattle.std.specs.Prelude.{◌↔◌, ◌<◌, ℕ, IsTrue};
ghost use Rattle.arc_bytes.specs.Five.{at};
ghost use Rattle.arc_proposer.specs.Counting.{ByThreeWith};

use arc_bytes::Five;
use arc_voting::by_three;

/// Whether it holds of at least three nodes, the endpoint among them.
pub fn by_three_with(holds: &Five<bool>, endpoint: u8) -> bool
    requires { endpoint < 5 }
    ensures { IsTrue result ↔ ByThreeWith (λ node. IsTrue (at holds.now node)) endpoint }
{
    if !*holds.get(endpoint) {
        return false;
    }
    by_three(holds)
}
