// Two parts of the test for a sound ring, for the crate `soundness`. Cells that hold nothing are zero (`blank`). In the rows each message
// stands once, and where it may, and exactly the channels that have one on the ring have one there (`messages_fit`).
#![tactic(auto)]

pub mod blank;
mod rows;

ghost use Rattle.std.specs.Prelude.{◌≡◌, ℕ, ◌<◌, ◌≤◌, get_or, false};
ghost use Rattle.network.specs.Layout.{node_room, channel_room};
ghost use Rattle.messages.specs.Decides.{Decides};
ghost use Rattle.messages.specs.Messages.{on_the_way, may_stand, has_message, MessagesFit};

use network::{CHANNELS, Head, ROW, Ring};
use rows::{Met, Place};

// Whether node p of n is on the way from the node of entry up to the one before the target: no further from the target than the entry is.
#[tactic(auto, unfolding(crate::specs::Messages::on_the_way))]
fn on_the_way(n: u8, p: u8, entry: u8, target: u8) -> bool
    ensures { result ≡ on_the_way n p entry target }
{
    let left = hops::hops(n, p, target);
    let whole = hops::hops(n, entry, target);
    left <= whole
}

// Whether a channel's message may stand at a place: in a line at its node of entry, in a buffer on its way.
#[tactic(auto, unfolding(crate::specs::Messages::may_stand))]
fn may_stand(head: &Head, channel: usize, place: Place) -> bool
    requires { channel < channel_room }
    ensures { result ≡ may_stand head.now channel place }
{
    let sender = head.senders[channel];
    let receiver = head.receivers[channel];
    let (entry, target) = if head.phases[channel] == Ring::ASKING {
        (receiver, sender)
    } else {
        (sender, receiver)
    };
    match place {
        Place::Buffer(p) => on_the_way(head.node_count, p, entry, target),
        Place::Line(p) => p == entry,
    }
}

// Exactly the channels that have a message on the ring were met, of the channels in use.
fn all_met(head: &Head, met: &Met) -> bool
    requires { head.now.channel_count ≤ channel_room }
    ensures { Decides result ((k : ℕ) → k < head.now.channel_count →
        get_or met.now k false ≡ has_message (get_or head.now.phases k 0)) }
{
    let mut wrong: u8 = 0;
    for k in 0..head.channel_count as usize {
        let phase = head.phases[k];
        let still = (phase == Ring::RESTING) | (phase == Ring::READY);
        if met[k] == still {
            wrong += 1;
        }
    }
    wrong == 0
}

// All rows, and all messages.
pub fn messages_fit(ring: &Ring) -> bool
    requires { (ring.now.head.node_count ≤ node_room) × (ring.now.head.channel_count ≤ channel_room) }
    ensures { Decides result (MessagesFit ring.now) }
{
    let in_use = ROW * (ring.head.node_count as usize);
    if !blank::from(in_use, &ring.slots, &ring.lines) {
        return false;
    }
    let mut met: Met = [false; CHANNELS];
    if !rows::mark(ring, &mut met) {
        return false;
    }
    all_met(&ring.head, &met)
}
