// The questions about a ring, which leave it as it is: `ask` asks hops left or the waiting set, and `tasks_in` tells how many tasks wait.
//
// A question opens as every call does, and that makes all its refusals. The answer is read off the head and, for where a message stands,
// the cells of the buffers.
#![tactic(auto)]

ghost use Rattle.std.specs.Prelude.{◌≡◌, ◌≤◌, ◌<◌, ◌*◌};
ghost use Rattle.std.specs.Int.Count.{ones};
ghost use Rattle.network.specs.Answers.{question_call};
ghost use Rattle.network.specs.Layout.{node_room, channel_room, row_length, answer_to};
ghost use Rattle.network.specs.Runs.{hops_left, waiting_set};
ghost use Rattle.questions.specs.Asked.{Within, stands_in, place_in, hops_in, waits_by, waiting_in};
ghost use Rattle.questions.specs.Tasks.{tasks_in};
ghost use Rattle.updates.specs.Flat.{used_at};

use command::Question;
use hops;
use network::{Answer, Head, Reply, Ring};
use numbers::{ChannelNo, NodeNo};
use refusal::Refusal;
use updates::opening::{Subject, open};

// Asks any of the questions. (The list is closed, so a match is plainer than a table of functions.)
pub fn ask(ring: &Ring, question: Question) -> Reply
    ensures { result ≡ answer_to (question_call question) ring.now }
{
    match question {
        Question::HopsLeft(k) => hops_left(ring, k),
        Question::WaitingSet(p) => waiting_set(ring, p),
    }
}

// How many hops the channel's record has still to go, or its request and then the record.
fn hops_left(ring: &Ring, channel: ChannelNo) -> Reply
    ensures { result ≡ answer_to (hops_left channel) ring.now }
{
    open(ring, Subject::Channel(channel))?;
    let left = hops_of(ring, channel.0);
    Ok(Answer::Hops(left))
}

// Hops left of a channel. A message in a line has its hops to go from the node where it enters; one in the buffer of a node, those from
// there.
fn hops_of(ring: &Ring, channel: u8) -> u8
    requires { (Within ring.now.head) × (channel < channel_room) }
    ensures { result ≡ hops_in ring.now.head ring.now.slots channel }
{
    let n = ring.head.node_count;
    let k = channel as usize;
    let cell = channel + 1;
    let sender = ring.head.senders[k];
    let receiver = ring.head.receivers[k];
    let back = hops::hops(n, sender, receiver);
    match ring.head.phases[k] {
        Ring::RESTING => 0,
        Ring::READY => back,
        Ring::ASKING => {
            let from = place_of(ring, cell, receiver);
            hops::hops(n, from, sender) + back
        }
        _ => {
            let from = place_of(ring, cell, sender);
            hops::hops(n, from, receiver)
        }
    }
}

// The node in whose buffer the cell stands, or `entry` where it stands in none.
fn place_of(ring: &Ring, cell: u8, entry: u8) -> u8
    requires { Within ring.now.head }
    ensures { result ≡ place_in ring.now.head ring.now.slots cell entry ring.now.head.node_count }
{
    for p in (0..ring.head.node_count).rev() {
        if stands_in(ring, p as usize, cell) {
            return p;
        }
    }
    entry
}

// Whether the cell stands in the buffer of node `at`.
fn stands_in(ring: &Ring, at: usize, cell: u8) -> bool
    requires { (at < node_room) × (used_at ring.now.head at ≤ row_length) }
    ensures { result ≡ stands_in ring.now.slots (row_length * at) cell (used_at ring.now.head at) }
{
    let base = network::ROW * at;
    let used = ring.head.used[at] as usize;
    ring.slots[base..base + used].contains(&cell)
}

// The channels whose receiver is the node and that are not resting, as a set of bits, channel 0 being the lowest.
fn waiting_set(ring: &Ring, node: NodeNo) -> Reply
    ensures { result ≡ answer_to (waiting_set node) ring.now }
{
    open(ring, Subject::Tasks(node))?;
    let set = set_of(&ring.head, node.0);
    Ok(Answer::Waiting(set))
}

// From the last channel to the first: every channel moves the set up by a bit, and its own is the lowest.
fn set_of(head: &Head, p: u8) -> u64
    requires { head.now.channel_count ≤ channel_room }
    ensures { result ≡ waiting_in head.now p }
{
    let mut set = 0;
    for k in (0..head.channel_count as usize).rev() {
        set = 2 * set + bit_of(head.receivers[k], head.phases[k], p);
    }
    set
}

// 1 where a channel waits at node `p`: `p` is its receiver and it is not resting.
fn bit_of(receiver: u8, phase: u8, p: u8) -> u64
    ensures { result ≡ waits_by p receiver phase }
{
    u64::from(receiver == p && phase != Ring::RESTING)
}

// How many tasks of a node wait: the number of ones in its waiting set.
pub fn waiting_tasks(set: u64) -> u32
    ensures { result ≡ ones set }
{
    set.count_ones()
}

// What a reply to the waiting set says of the tasks: the number of ones in the set, or the refusal. It answers no other.
pub fn tasks_in(reply: Reply) -> Result<u32, Refusal>
    ensures { result ≡ tasks_in reply }
{
    match reply? {
        Answer::Waiting(set) => Ok(waiting_tasks(set)),
        _ => Ok(0),
    }
}
