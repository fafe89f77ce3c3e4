// A ring that is held in tenths of a degree, turned into hundredths: the temperature of every record offered and carried ten times as many,
// all else the same. 25 where the ring is not sound in tenths, and it is then as it was. A ring is not asked in which unit it is held:
// one in hundredths that would be sound in tenths is turned as any other.
ghost use Rattle.std.specs.Prelude.{◌≡◌, length};
ghost use Rattle.network.specs.Answers.{step_of};
ghost use Rattle.network.specs.Layout.{record_room};
ghost use Rattle.wire.specs.Bytes.{Bytes};
ghost use Rattle.convert.specs.TurnedRing.{turn_ring};
ghost use Rattle.convert.specs.RingPass.{turned_record, turned_records, records_in_tenths};

use crate::tables::turned_cell;
use batch::{BatchRecord, sending};
use network::{Answer, Records, Reply, Ring, Step};
use refusal::Refusal;

// A record in hundredths.
fn turned_record(record: BatchRecord) -> BatchRecord
    ensures { result ≡ turned_record «record» }
{
    BatchRecord {
        temperature: turned_cell(record.temperature),
        ..record
    }
}

// Turns the records of all channels, and answers whether every temperature was one in tenths.
fn turn_records(records: &mut Records) -> bool
    requires { (length records.old ≡ record_room) × Bytes records.old }
    ensures { (result ≡ records_in_tenths records.old) × (records.new ≡ turned_records records.old) }
{
    let mut tenths = true;
    for k in 0..network::CHANNELS {
        let record = updates::record_of(records, k);
        if !sending::in_tenths(record.temperature) {
            tenths = false;
        }
        updates::set_record(records, k, turned_record(record));
    }
    tenths
}

// The ring in hundredths, or the ring as it was and 25.
pub fn turned(ring: Ring) -> Step
    ensures { result ≡ step_of ring (turn_ring ring) }
{
    let refused = Step {
        ring,
        reply: Err(Refusal::UnsoundRing),
    };
    let mut after = ring;
    if !turn_records(&mut after.offers) {
        return refused;
    }
    if !turn_records(&mut after.carried) {
        return refused;
    }
    if !soundness::is_sound(&after) {
        return refused;
    }
    Step {
        ring: after,
        reply: Ok(Answer::Done),
    }
}

// The same on a lent ring. It is judged in hundredths, so a copy of it is turned first.
pub fn turn_ring(ring: &mut Ring) -> Reply
    ensures { (ring.new ≡ (step_of ring.old (turn_ring ring.old)).ring)
        × (result ≡ (step_of ring.old (turn_ring ring.old)).reply) }
{
    let step = turned(*ring);
    *ring = step.ring;
    step.reply
}
