// The test for a sound ring (document 01, "A sound ring"), which every call makes first. Each part of the ring is judged by one function,
// which answers true exactly when the statement in its contract holds (`Decides`); together they are the statement of specs/Fits, and
// that holds of exactly the sound rings. The messages are judged in the crate `messages`.
//
// Every call pays for this test. So its loops go over all their cells and leave only at the end, counting the wrong ones: the compiler
// then tests 16 cells at once. The passes over messages and over the words of a blank record stop where they meet a wrong one. Loops that look
// at several arrays of the head go by number, as a zip of so many would be no plainer.
#![tactic(auto)]

mod channels;
mod nodes;
mod records;

ghost use Rattle.std.specs.Prelude.{◌≡◌, get_or};
ghost use Rattle.network.specs.Counting.{sum};
ghost use Rattle.network.specs.Layout.{node_room, sound_ring};
ghost use Rattle.messages.specs.Decides.{Decides};
ghost use Rattle.soundness.specs.Fits.{CountsFit, StartFits};

use messages;
use network::{ByNode, Head, Ring};

// The counts are in range, and the byte of no use is zero.
fn counts_fit(head: &Head) -> bool
    ensures { Decides result (CountsFit head.now) }
{
    head.started <= 1
        && head.node_count <= Ring::MOST_NODES
        && head.channel_count <= Ring::MOST_CHANNELS
        && head.spare == 0
}

// The slots of all nodes. A node that there is not has none.
pub fn slot_count(capacity: &ByNode) -> usize
    ensures { result ≡ sum node_room (λ p. get_or capacity.now p 0) }
{
    capacity.iter().map(|slots| usize::from(*slots)).sum()
}

// Started: n and c at least 1 and b greater than c. Not started: no deliveries; the rest is said of each channel and node.
fn start_fits(head: &Head) -> bool
    ensures { Decides result (StartFits head.now) }
{
    // Read in both cases: that the count is one that a ring can have is part of what is decided.
    let deliveries = head.deliveries;
    if head.started != 1 {
        return deliveries == 0;
    }
    0 < head.node_count
        && 0 < head.channel_count
        && (head.channel_count as usize) < slot_count(&head.capacity)
}

// Whether the ring is sound.
pub fn is_sound(ring: &Ring) -> bool
    ensures { result ≡ sound_ring ring.now }
{
    let head = &ring.head;
    counts_fit(head)
        && nodes::nodes_fit(head)
        && channels::channels_fit(head)
        && records::records_fit(ring)
        && messages::messages_fit(ring)
        && start_fits(head)
}
