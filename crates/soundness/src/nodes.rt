// What the head says of the nodes: of each in use its slots, how many of them are used, and its turn mark; the others are blank.
ghost use Rattle.messages.specs.Decides.{Decides};
ghost use Rattle.soundness.specs.Fits.{UsedNode, NodeFits, NodesFit};

use batch::PLACES;
use network::{Head, NODES, Ring};

// A node as the head has it.
#[derive(Clone, Copy)]
struct Node {
    slots: u8,
    used: u8,
    waiting: u8,
    mark: u8,
}

impl Node {
    // A node in use, but for its rows of cells. A turn mark stands only on a started ring and with a line that isn't empty.
    fn used_fits(self, started: bool) -> bool
        ensures { Decides result (UsedNode started self.slots self.used self.waiting self.mark) }
    {
        (0 < self.slots)
            & (self.slots <= Ring::MOST_SLOTS)
            & (self.used <= self.slots)
            & (self.mark <= u8::from(started))
            & (self.mark <= self.waiting)
    }

    // A node, in use or not.
    fn fits(self, in_use: bool, started: bool) -> bool
        ensures { Decides result (NodeFits in_use started self.slots self.used self.waiting self.mark) }
    {
        if in_use {
            return self.used_fits(started);
        }
        self.slots | self.used | self.waiting | self.mark == 0
    }
}

// All nodes, but for their rows of cells.
pub fn nodes_fit(head: &Head) -> bool
    ensures { Decides result (NodesFit head.now) }
{
    let started = head.started == 1;
    let places = PLACES;
    let mut wrong: u8 = 0;
    for p in 0..NODES {
        let node = Node {
            slots: head.capacity[p],
            used: head.used[p],
            waiting: head.waiting[p],
            mark: head.marks[p],
        };
        if !node.fits(places[p] < head.node_count, started) {
            wrong += 1;
        }
    }
    wrong == 0
}
