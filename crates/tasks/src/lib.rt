// The calls at the ends of a channel: receive asks for a record, withdraw takes a request back while it is in its line, send offers one.
//
// Each is lent the ring. It opens as every call does; then come its own refusals in the order of document 01, and a refusal leaves the ring
// as it was.
#![tactic(auto)]

ghost use Rattle.std.specs.Prelude.{◌≡◌};
ghost use Rattle.batch.specs.Sending.{record_from};
ghost use Rattle.network.specs.Layout.{ring_after, reply_to};
ghost use Rattle.network.specs.Runs;

use batch::sending;
use batch::sending::{Fields, Scale};
use network::{Answer, Reply, Ring};
use numbers::ChannelNo;
use refusal::Refusal;
use updates::opening::{Subject, open};

// A resting channel becomes asking, and its request joins the receiver node's line.
pub fn receive(ring: &mut Ring, channel: ChannelNo) -> Reply
    ensures { (ring.new ≡ ring_after (Runs.receive channel) ring.old)
        × (result ≡ reply_to (Runs.receive channel) ring.old) }
{
    open(ring, Subject::Channel(channel))?;
    let k = channel.0 as usize;
    if ring.head.phases[k] != Ring::RESTING {
        return Err(Refusal::NotResting);
    }
    ring.head.phases[k] = Ring::ASKING;
    let receiver = ring.head.receivers[k] as usize;
    updates::join(ring, receiver, channel.0 + 1);
    Ok(Answer::Done)
}

// An asking channel's request is taken out of its receiver node's line, and the channel rests; a record that is offered stays offered.
pub fn withdraw(ring: &mut Ring, channel: ChannelNo) -> Reply
    ensures { (ring.new ≡ ring_after (Runs.withdraw channel) ring.old)
        × (result ≡ reply_to (Runs.withdraw channel) ring.old) }
{
    open(ring, Subject::Channel(channel))?;
    let k = channel.0 as usize;
    if ring.head.phases[k] != Ring::ASKING {
        return Err(Refusal::NotAsking);
    }
    let at = ring.head.receivers[k] as usize;
    let first = network::ROW * at;
    let line = &ring.lines[first..first + ring.head.waiting[at] as usize];
    let request = updates::index_in(line, channel.0 + 1);
    let place = request.ok_or(Refusal::RequestInBuffer)?;
    ring.head.phases[k] = Ring::RESTING;
    updates::leave_line(ring, at, place);
    Ok(Answer::Done)
}

// The record of these fields, their temperature in this unit, is offered. If the channel is ready, it becomes answering and the record
// goes out at once as the response.
pub fn send(ring: &mut Ring, channel: ChannelNo, scale: Scale, fields: Fields) -> Reply
    ensures { (ring.new ≡ ring_after (Runs.send channel (record_from scale fields)) ring.old)
        × (result ≡ reply_to (Runs.send channel (record_from scale fields)) ring.old) }
{
    open(ring, Subject::Channel(channel))?;
    let record = sending::make(scale, fields)?;
    let k = channel.0 as usize;
    if ring.head.offered[k] != 0 {
        return Err(Refusal::AlreadyOffered);
    }
    if ring.head.phases[k] == Ring::READY {
        updates::respond(ring, channel.0, record);
        return Ok(Answer::Done);
    }
    updates::set_record(&mut ring.offers, k, record);
    ring.head.offered[k] = 1;
    Ok(Answer::Done)
}
