// What every call asks of its ring before anything else: that it is sound, that it has started or has not, and that the channel or the
// node of the call is there. A call whose opening is refused answers that refusal.
ghost use Rattle.std.specs.Prelude.{◌≡◌};
ghost use Rattle.updates.specs.Openings.{before_start, after_start, in_count, opening_of};

use network::Ring;
use numbers::{ChannelNo, NodeNo};
use refusal::{Refusal, Verdict};
use soundness;

// What a call is about.
#[derive(Clone, Copy)]
pub enum Subject {
    // The plan of a ring that has not started.
    Plan,
    // A channel or a node of a started ring.
    Channel(ChannelNo),
    Node(NodeNo),
    // The tasks of a node, whether the ring has started or not.
    Tasks(NodeNo),
}

// The opening of a call about this subject: where it passed, the call goes on.
pub fn open(ring: &Ring, subject: Subject) -> Verdict
    ensures { result ≡ opening_of ring.now subject }
{
    if !soundness::is_sound(ring) {
        return Err(Refusal::UnsoundRing);
    }
    let started = ring.head.started;
    let nodes = ring.head.node_count;
    let channels = ring.head.channel_count;
    // A closed list: a match is plainer than a table of functions.
    match subject {
        Subject::Plan => before_start(started),
        Subject::Channel(channel) => after_start(
            started,
            channels,
            channel.0,
            Refusal::NoSuchChannel,
        ),
        Subject::Node(node) => after_start(started, nodes, node.0, Refusal::NoSuchNode),
        Subject::Tasks(node) => in_count(nodes, node.0, Refusal::NoSuchNode),
    }
}

// Only a ring that has not started is built further.
fn before_start(started: u8) -> Verdict
    ensures { result ≡ before_start started }
{
    if started != 0 {
        return Err(Refusal::AlreadyStarted);
    }
    Ok(())
}

// The ring has started, and there is one of this number.
fn after_start(started: u8, count: u8, number: u8, none: Refusal) -> Verdict
    ensures { result ≡ after_start started count number none }
{
    if started == 0 {
        return Err(Refusal::NotStarted);
    }
    in_count(count, number, none)
}

// There is one of this number, or the call is refused with `none`.
fn in_count(count: u8, number: u8, none: Refusal) -> Verdict
    ensures { result ≡ in_count count number none }
{
    if count <= number {
        return Err(none);
    }
    Ok(())
}
