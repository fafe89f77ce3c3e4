// The ring of a site, held once by its controller and changed in place: the ring calls on a lent ring. A controller makes one ring by
// `Ring::fresh()`, keeps it, and lends it to these functions:
//
// - while it lays the plan, `add_node`, `add_channel` and then `start`, each of which replies `Done`;
// - for its tasks, `receive`, `send` and `withdraw`, which reply `Done`;
// - to keep the messages going, `enter` and `move_on`, at any node it likes. They reply `Done`; a move that delivers replies
//   `Delivered` with the channel and the record. Or, instead of these, `dispatch`, which makes rounds of them until nothing is on the
//   ring, and answers with all their deliveries;
// - to look, `hops_left`, which answers `Hops`, `waiting_set`, which answers `Waiting`, and `tasks_waiting`, which answers how many tasks
//   of a node wait: the ones of that set. They only read the ring, and so does `is_sound`.
//
// Any of them but `is_sound` replies `Err` with the first refusal that applies, and then the ring is as it was; an unsound ring is refused
// by all.
//
// The calls by name make a command or a question and hand the ring on to `perform` or `ask`. No array is copied. Each contract says the
// whole ring afterwards and the reply. `perform`, `ask`, `dispatch` and `is_sound` hand on to other crates and stay functions of this one,
// which is what README names: a controller needs no other.
#![tactic(auto)]

pub mod dispatcher;

ghost use Rattle.std.specs.Prelude.{◌≡◌};
ghost use Rattle.batch.specs.Sending.{record_from};
ghost use Rattle.network.specs.Answers.{call_of, question_call};
ghost use Rattle.network.specs.Layout.{sound_ring, ring_after, reply_to, answer_to};
ghost use Rattle.network.specs.Runs;
ghost use Rattle.questions.specs.Tasks.{tasks_to, said_in, tasks_said};

use batch::sending::{Fields, Scale};
use command::{Command, Question};
pub use dispatcher::dispatch;
use network::{Reply, Ring};
use numbers::{ChannelNo, NodeNo};
use refusal::Refusal;

// Makes any command.
pub fn perform(ring: &mut Ring, command: Command) -> Reply
    ensures { (ring.new ≡ ring_after (call_of command) ring.old)
        × (result ≡ reply_to (call_of command) ring.old) }
{
    calls::perform(ring, command)
}

// Asks any question.
pub fn ask(ring: &Ring, question: Question) -> Reply
    ensures { result ≡ answer_to (question_call question) ring.now }
{
    questions::ask(ring, question)
}

// Whether the ring is sound. No ring call: it is what every call asks first.
pub fn is_sound(ring: &Ring) -> bool
    ensures { result ≡ sound_ring ring.now }
{
    soundness::is_sound(ring)
}

// Adds a node with so many slots.
pub fn add_node(ring: &mut Ring, slots: u8) -> Reply
    ensures { (ring.new ≡ ring_after (Runs.add_node slots) ring.old)
        × (result ≡ reply_to (Runs.add_node slots) ring.old) }
{
    perform(ring, command::add_node(slots))
}

// Adds a channel from one node to another, or to the same.
pub fn add_channel(ring: &mut Ring, sender: NodeNo, receiver: NodeNo) -> Reply
    ensures { (ring.new ≡ ring_after (Runs.add_channel sender receiver) ring.old)
        × (result ≡ reply_to (Runs.add_channel sender receiver) ring.old) }
{
    perform(ring, command::add_channel(sender, receiver))
}

// Ends the plan: from here on the ring runs.
pub fn start(ring: &mut Ring) -> Reply
    ensures { (ring.new ≡ ring_after Runs.start ring.old)
        × (result ≡ reply_to Runs.start ring.old) }
{
    perform(ring, command::start())
}

// Asks for a record on a resting channel.
pub fn receive(ring: &mut Ring, channel: ChannelNo) -> Reply
    ensures { (ring.new ≡ ring_after (Runs.receive channel) ring.old)
        × (result ≡ reply_to (Runs.receive channel) ring.old) }
{
    perform(ring, command::receive(channel))
}

// Offers the record of these fields on a channel; the unit is that of their temperature.
pub fn send(ring: &mut Ring, channel: ChannelNo, scale: Scale, fields: Fields) -> Reply
    ensures { (ring.new ≡ ring_after (Runs.send channel (record_from scale fields)) ring.old)
        × (result ≡ reply_to (Runs.send channel (record_from scale fields)) ring.old) }
{
    perform(ring, command::send(channel, scale, fields))
}

// Brings the first of a node's line into its buffer.
pub fn enter(ring: &mut Ring, node: NodeNo) -> Reply
    ensures { (ring.new ≡ ring_after (Runs.enter node) ring.old)
        × (result ≡ reply_to (Runs.enter node) ring.old) }
{
    perform(ring, command::enter(node))
}

// Moves the first of a node's buffer to the next node.
pub fn move_on(ring: &mut Ring, node: NodeNo) -> Reply
    ensures { (ring.new ≡ ring_after (Runs.move node) ring.old)
        × (result ≡ reply_to (Runs.move node) ring.old) }
{
    perform(ring, command::move_on(node))
}

// Gives up a request that still stands in its line.
pub fn withdraw(ring: &mut Ring, channel: ChannelNo) -> Reply
    ensures { (ring.new ≡ ring_after (Runs.withdraw channel) ring.old)
        × (result ≡ reply_to (Runs.withdraw channel) ring.old) }
{
    perform(ring, command::withdraw(channel))
}

// How many hops a channel's message, and the response to it, still have to go.
pub fn hops_left(ring: &Ring, channel: ChannelNo) -> Reply
    ensures { result ≡ answer_to (Runs.hops_left channel) ring.now }
{
    ask(ring, command::hops_left(channel))
}

// The channels on which a node's tasks wait, as a set of bits.
pub fn waiting_set(ring: &Ring, node: NodeNo) -> Reply
    ensures { result ≡ answer_to (Runs.waiting_set node) ring.now }
{
    ask(ring, command::waiting_set(node))
}

// How many tasks of a node wait: the number of ones in its waiting set.
pub fn tasks_waiting(ring: &Ring, node: NodeNo) -> Result<u32, Refusal>
    ensures { (result ≡ tasks_to node ring.now) × (said_in result ≡ tasks_said node ring.now) }
{
    questions::tasks_in(waiting_set(ring, node))
}
