// The records, offered or carried: those that are there are good, and all other bytes are zero.
ghost use Rattle.std.specs.Prelude.{◌≡◌, ℕ, ◌*◌, ◌<◌, ◌≤◌, eqb, length, get_or};
ghost use Rattle.batch.specs.Good.{every, is_zero};
ghost use Rattle.wire.specs.Record.{record_length};
ghost use Rattle.network.specs.Layout.{channel_room, record_room, row};
ghost use Rattle.messages.specs.Decides.{Decides};
ghost use Rattle.soundness.specs.Fits.{BytesFit, RecordsFit};

use batch;
use messages::blank;
use network::{ByChannel, Ring};
use wire;
use wire::RECORD_LENGTH;

// The bytes of a record, taken eight at a time.
const WORD: usize = 8;

// Whether all bytes of a record are zero, eight at a time: the compiler makes one comparison of the eight.
fn record_blank(bytes: &[u8]) -> bool
    requires { length bytes.now ≡ record_length }
    ensures { result ≡ every is_zero bytes.now }
{
    for word in bytes.chunks_exact(WORD) {
        if !batch::all_zero(word) {
            return false;
        }
    }
    true
}

// A record that is there is good, and where there is none the bytes are zero.
fn record_fits(there: bool, bytes: &[u8]) -> bool
    requires { length bytes.now ≡ record_length }
    ensures { Decides result (BytesFit there bytes.now) }
{
    if there {
        return wire::record_good(bytes);
    }
    record_blank(bytes)
}

// The records of the first `count` channels: one stands where the channel's state is `with`.
fn each_fits(count: usize, states: &ByChannel, with: u8, records: &[u8]) -> bool
    requires { (count ≤ channel_room) × (length records.now ≡ record_room) }
    ensures { Decides result ((k : ℕ) → k < count →
        BytesFit (eqb (get_or states.now k 0) «with») (row record_length records.now k)) }
{
    let mut wrong: u8 = 0;
    for k in 0..count {
        let from = RECORD_LENGTH * k;
        let to = from + RECORD_LENGTH;
        if !record_fits(states[k] == with, &records[from..to]) {
            wrong += 1;
        }
    }
    wrong == 0
}

// All records.
pub fn records_fit(ring: &Ring) -> bool
    requires { ring.now.head.channel_count ≤ channel_room }
    ensures { Decides result (RecordsFit ring.now) }
{
    let head = &ring.head;
    let count = head.channel_count as usize;
    blank::from(RECORD_LENGTH * count, &ring.offers, &ring.carried)
        && each_fits(count, &head.offered, 1, &ring.offers)
        && each_fits(count, &head.phases, Ring::ANSWERING, &ring.carried)
}
