// The dispatcher of document 02: one call that runs the ring for a number of rounds. A round goes from node 0 on, and tries an entry and
// then a move at each node; rounds are made until nothing is on the ring or the number is spent.
//
// The ring is tested once, when the call opens; the entries and moves keep it sound, so `enter_at` and `move_at` are asked at every node
// without another test. The deliveries are kept, in order, in the answer. There is a place for each channel, and that is enough.
#![tactic(auto)]

ghost use Rattle.std.specs.Prelude.{◌≡◌, [], ◌∷◌, ◌+◌, ◌≤◌, ◌<◌, Ok, length};
ghost use Rattle.network.specs.Answers.{delivered_in};
ghost use Rattle.network.specs.Dispatch.{listed};
ghost use Rattle.network.specs.Dispatch as Dispatch;
ghost use Rattle.network.specs.Dispatcher.{dispatch_step};
ghost use Rattle.network.specs.Layout.{channel_room};
ghost use Rattle.network.specs.Runs;
ghost use Rattle.dispatch.specs.Log.{logged_all};
ghost use Rattle.dispatch.specs.Rounds.{CanGo, CallsMade, is_moving, none_moving};

use batch::BatchRecord;
use network::{Answer, Dispatched, Head, Reply, Ring};
use numbers::NodeNo;
use refusal::Refusal;
use traffic::{enter_at, move_at};
use updates::opening::{Subject, open};

// The dispatcher opens as a move does, at node 0, which every started ring has; so it is refused with 25 and then with 8.
pub fn dispatch(ring: &mut Ring, given: u16) -> Result<Dispatched, Refusal>
    ensures { (ring.new ≡ (dispatch_step given ring.old).ring)
        × (result ≡ (dispatch_step given ring.old).dispatched) }
{
    open(ring, Subject::Node(NodeNo(0)))?;
    Ok(rounds(ring, given))
}

// Rounds are made on a sound started ring, until nothing is on it or as many as are given are made.
fn rounds(ring: &mut Ring, given: u16) -> Dispatched
    requires { CanGo ring.old 0 }
    ensures { (ring.new ≡ (dispatch_step given ring.old).ring)
        × (Ok result ≡ (dispatch_step given ring.old).dispatched) }
{
    let mut log = Dispatched {
        rounds: 0,
        count: 0,
        channels: [0; network::CHANNELS],
        records: [BatchRecord::none(); network::CHANNELS],
    };
    for _ in 0..given {
        if is_still(&ring.head) {
            return log;
        }
        round(ring, &mut log);
        log.rounds += 1;
    }
    log
}

// A round: every node is visited, from node 0 on.
fn round(ring: &mut Ring, log: &mut Dispatched)
    requires { CanGo ring.old log.old.count }
    ensures { CallsMade (Dispatch.round ring.old.head.node_count) ring.old log.old ring.new log.new }
{
    for node in 0..ring.head.node_count {
        visit(ring, log, NodeNo(node));
    }
}

// An entry is tried at a node, and then a move. An entry delivers nothing.
fn visit(ring: &mut Ring, log: &mut Dispatched, node: NodeNo)
    requires can_go { CanGo ring.old log.old.count }
    requires node_bound { node.0 < ring.old.head.node_count }
    ensures { CallsMade (Runs.enter node ∷ Runs.move node ∷ []) ring.old log.old ring.new log.new }
{
    let _ = enter_at(ring, node);
    keep(log, move_at(ring, node));
}

// The delivery in a reply is kept behind the others. Any other reply, a refusal too, leaves no trace.
fn keep(log: &mut Dispatched, reply: Reply)
    requires { log.old.count + length (listed (delivered_in reply)) ≤ channel_room }
    ensures { log.new ≡ logged_all (listed (delivered_in reply)) log.old }
{
    if let Ok(Answer::Delivered(channel, record)) = reply {
        let place = log.count as usize;
        log.channels[place] = channel.0;
        log.records[place] = record;
        log.count += 1;
    }
}

// Whether nothing is on the ring.
fn is_still(head: &Head) -> bool
    requires { head.now.channel_count ≤ channel_room }
    ensures { result ≡ none_moving head.now.phases head.now.channel_count }
{
    let count = head.channel_count as usize;
    !head.phases[..count].iter().any(|phase| is_moving(*phase))
}

// Whether a channel of this phase has its message on the ring.
fn is_moving(phase: u8) -> bool
    ensures { result ≡ is_moving phase }
{
    phase == Ring::ASKING || phase == Ring::ANSWERING
}
