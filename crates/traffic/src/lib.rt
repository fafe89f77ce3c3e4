// The calls that keep the messages going: enter brings a node's own message into its buffer, move carries one on to the next node.
//
// Each is lent the ring. It opens as every call does; then come its own refusals in the order of document 01, and a refusal leaves the ring
// as it was.
#![tactic(auto)]

ghost use Rattle.std.specs.Prelude.{◌≡◌, ◌<◌};
ghost use Rattle.hops.specs.Hops.{next};
ghost use Rattle.network.specs.Layout.{ring_after, reply_to};
ghost use Rattle.network.specs.Network.{node_no};
ghost use Rattle.network.specs.Runs;
ghost use Rattle.updates.specs.Flat.{mark_after, target_by};
ghost use Rattle.updates.specs.Known.{AtNode, Takes, Delivers, Passes};

use network::{Answer, Reply, Ring};
use numbers::{ChannelNo, NodeNo};
use refusal::Refusal;
use updates::opening::{Subject, open};

// The first of the node's line goes to the end of its buffer, and the turn mark is cleared.
pub fn enter(ring: &mut Ring, node: NodeNo) -> Reply
    ensures { (ring.new ≡ ring_after (Runs.enter node) ring.old)
        × (result ≡ reply_to (Runs.enter node) ring.old) }
{
    open(ring, Subject::Node(node))?;
    enter_at(ring, node)
}

// The same at a node of a sound started ring.
pub fn enter_at(ring: &mut Ring, node: NodeNo) -> Reply
    requires { AtNode ring.old node.0 }
    ensures { (ring.new ≡ ring_after (Runs.enter node) ring.old)
        × (result ≡ reply_to (Runs.enter node) ring.old) }
{
    let p = node.0 as usize;
    let waiting = ring.head.waiting[p];
    if waiting == 0 {
        return Err(Refusal::LineEmpty);
    }
    let used = ring.head.used[p];
    if ring.head.capacity[p] <= used {
        return Err(Refusal::NoFreeSlot);
    }
    let first = ring.lines[network::ROW * p];
    updates::put(&mut ring.slots, p, used, first);
    updates::cut(&mut ring.lines, p, 0);
    ring.head.used[p] = used + 1;
    ring.head.waiting[p] = waiting - 1;
    ring.head.marks[p] = 0;
    Ok(Answer::Done)
}

// The first of the node's buffer goes to the next node: a request is taken by its sender node, a response is delivered to its receiver
// node, both without a slot; anything else goes to the end of the next node's buffer.
pub fn move_on(ring: &mut Ring, node: NodeNo) -> Reply
    ensures { (ring.new ≡ ring_after (Runs.move node) ring.old)
        × (result ≡ reply_to (Runs.move node) ring.old) }
{
    open(ring, Subject::Node(node))?;
    move_at(ring, node)
}

// The same at a node of a sound started ring.
pub fn move_at(ring: &mut Ring, node: NodeNo) -> Reply
    requires { AtNode ring.old node.0 }
    ensures { (ring.new ≡ ring_after (Runs.move node) ring.old)
        × (result ≡ reply_to (Runs.move node) ring.old) }
{
    let here = node.0;
    let p = here as usize;
    if ring.head.used[p] == 0 {
        return Err(Refusal::BufferEmpty);
    }
    let cell = ring.slots[network::ROW * p];
    let k = (cell - 1) as usize;
    let next = next_node(ring.head.node_count, here);
    let phase = ring.head.phases[k];
    let target = target_of(phase, ring.head.senders[k], ring.head.receivers[k]);
    if target != next {
        return pass(ring, here, next, cell);
    }
    if phase == Ring::ASKING {
        return take(ring, here, cell);
    }
    deliver(ring, here, cell)
}

// The next node round the ring.
fn next_node(count: u8, p: u8) -> u8
    requires { p < count }
    ensures { result ≡ next count p }
{
    let after = p + 1;
    if after == count { 0 } else { after }
}

// The node that takes the message of a channel: a request goes to the sender node, a response to the receiver node.
fn target_of(phase: u8, sender: u8, receiver: u8) -> u8
    ensures { result ≡ target_by phase sender receiver }
{
    if phase == Ring::ASKING {
        sender
    } else {
        receiver
    }
}

// The three things that become of the cell that leaves node p. (A struct of the two would be made once and taken apart at once.)

// A request is taken at its sender node: the channel becomes ready, or, with a record offered, answering.
fn take(ring: &mut Ring, p: u8, cell: u8) -> Reply
    requires { Takes ring.old p cell }
    ensures { (ring.new ≡ ring_after (Runs.move (node_no p)) ring.old)
        × (result ≡ reply_to (Runs.move (node_no p)) ring.old) }
{
    let channel = cell - 1;
    let k = channel as usize;
    updates::leave(ring, p as usize);
    if ring.head.offered[k] == 0 {
        ring.head.phases[k] = Ring::READY;
        return Ok(Answer::Done);
    }
    let record = updates::record_of(&ring.offers, k);
    updates::clear_record(&mut ring.offers, k);
    ring.head.offered[k] = 0;
    updates::respond(ring, channel, record);
    Ok(Answer::Done)
}

// A response is delivered at its receiver node: the channel rests and the count rises.
fn deliver(ring: &mut Ring, p: u8, cell: u8) -> Reply
    requires { Delivers ring.old p cell }
    ensures { (ring.new ≡ ring_after (Runs.move (node_no p)) ring.old)
        × (result ≡ reply_to (Runs.move (node_no p)) ring.old) }
{
    let channel = cell - 1;
    let k = channel as usize;
    updates::leave(ring, p as usize);
    let record = updates::record_of(&ring.carried, k);
    updates::clear_record(&mut ring.carried, k);
    ring.head.phases[k] = Ring::RESTING;
    ring.head.deliveries = network::one_more(ring.head.deliveries);
    Ok(Answer::Delivered(ChannelNo(channel), record))
}

// Anything else passes into the next node's buffer, if a slot is free there and no turn mark is set.
fn pass(ring: &mut Ring, p: u8, next: u8, cell: u8) -> Reply
    requires { Passes ring.old p next cell }
    ensures { (ring.new ≡ ring_after (Runs.move (node_no p)) ring.old)
        × (result ≡ reply_to (Runs.move (node_no p)) ring.old) }
{
    let q = next as usize;
    if ring.head.capacity[q] <= ring.head.used[q] {
        return Err(Refusal::NextBufferFull);
    }
    if ring.head.marks[q] != 0 {
        return Err(Refusal::TurnMarkSet);
    }
    updates::leave(ring, p as usize);
    // Read after the message left: on a ring of one node the next node is this one.
    let used = ring.head.used[q];
    updates::put(&mut ring.slots, q, used, cell);
    ring.head.used[q] = used + 1;
    ring.head.marks[q] = mark_after(ring.head.waiting[q], ring.head.marks[q]);
    Ok(Answer::Done)
}

// The turn mark of a node that a message passed into: it is set where a line waits.
fn mark_after(waiting: u8, mark: u8) -> u8
    ensures { result ≡ mark_after waiting mark }
{
    if 0 < waiting { 1 } else { mark }
}
