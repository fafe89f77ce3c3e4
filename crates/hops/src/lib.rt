// How many hops a message makes from one node of the ring to another. Their meaning is the rule of the fitters' sheet, by
// remainders (specs/Hops.antt); here they are worked out by a formula. Any number of nodes that a byte holds. Assumes nothing.
#![tactic(auto)]

ghost use Rattle.std.specs.Prelude.{◌≡◌};
ghost use Rattle.hops.specs.Hops.{hops_between};

// The answer for a node that the ring does not have: 0 and no `Option`, as `hops_between` and the theorem `WorkedHops` have it.
const NO_NODE: u8 = 0;

// Hops from node p to node q on a ring of n nodes: on to q where it lies ahead, else past the last node and round.
pub fn hops(n: u8, p: u8, q: u8) -> u8
    ensures { result ≡ hops_between n p q }
{
    if n <= p || n <= q {
        return NO_NODE;
    }
    if p < q {
        return q - p;
    }
    n - p + q
}
