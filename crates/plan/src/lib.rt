// The plan of a ring: nodes and channels are added, then the ring is started.
//
// Each is lent the ring. It opens as every call does; then come its own refusals in the order of document 01, and a refusal leaves the ring
// as it was.
#![tactic(auto)]

ghost use Rattle.std.specs.Prelude.{◌≡◌};
ghost use Rattle.network.specs.Layout.{ring_after, reply_to};
ghost use Rattle.network.specs.Runs;

use network::{Answer, Reply, Ring};
use numbers::NodeNo;
use refusal::Refusal;
use soundness;
use updates::opening::{Subject, open};

// A node with so many slots comes after the others, with nothing in it.
pub fn add_node(ring: &mut Ring, capacity: u8) -> Reply
    ensures { (ring.new ≡ ring_after (Runs.add_node capacity) ring.old)
        × (result ≡ reply_to (Runs.add_node capacity) ring.old) }
{
    open(ring, Subject::Plan)?;
    let count = ring.head.node_count;
    if Ring::MOST_NODES <= count {
        return Err(Refusal::NodesFull);
    }
    if !(1..=Ring::MOST_SLOTS).contains(&capacity) {
        return Err(Refusal::BadSlots);
    }
    ring.head.capacity[count as usize] = capacity;
    ring.head.node_count = count + 1;
    Ok(Answer::Done)
}

// A channel between two nodes comes after the others, at rest.
pub fn add_channel(ring: &mut Ring, sender: NodeNo, receiver: NodeNo) -> Reply
    ensures { (ring.new ≡ ring_after (Runs.add_channel sender receiver) ring.old)
        × (result ≡ reply_to (Runs.add_channel sender receiver) ring.old) }
{
    open(ring, Subject::Plan)?;
    let count = ring.head.channel_count;
    if Ring::MOST_CHANNELS <= count {
        return Err(Refusal::ChannelsFull);
    }
    let nodes = ring.head.node_count;
    if nodes <= sender.0 || nodes <= receiver.0 {
        return Err(Refusal::NoSuchEnd);
    }
    let k = count as usize;
    ring.head.senders[k] = sender.0;
    ring.head.receivers[k] = receiver.0;
    ring.head.channel_count = count + 1;
    Ok(Answer::Done)
}

// The ring starts, if it has a node, a channel and more slots than channels.
pub fn start(ring: &mut Ring) -> Reply
    ensures { (ring.new ≡ ring_after Runs.start ring.old) × (result ≡ reply_to Runs.start ring.old) }
{
    open(ring, Subject::Plan)?;
    let channels = ring.head.channel_count;
    if ring.head.node_count < 1 || channels < 1 {
        return Err(Refusal::NothingToStart);
    }
    // Nodes that were not added have no slots.
    if soundness::slot_count(&ring.head.capacity) <= channels as usize {
        return Err(Refusal::TooFewSlots);
    }
    ring.head.started = 1;
    Ok(Answer::Done)
}
