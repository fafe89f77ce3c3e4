// The dispatcher on a lent ring.
ghost use Rattle.std.specs.Prelude.{◌≡◌};
ghost use Rattle.network.specs.Dispatcher.{dispatch_step};

use network::{Dispatched, Ring};
use refusal::Refusal;

// Runs the ring for so many rounds, or until nothing is on it. A round tries an entry and then a move at every node, from node 0 on.
pub fn dispatch(ring: &mut Ring, rounds: u16) -> Result<Dispatched, Refusal>
    ensures { (ring.new ≡ (dispatch_step rounds ring.old).ring)
        × (result ≡ (dispatch_step rounds ring.old).dispatched) }
{
    dispatch::dispatch(ring, rounds)
}
