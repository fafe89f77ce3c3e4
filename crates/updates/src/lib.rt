// The changes that the ring calls are made of, and how a call opens: for the crates of the calls alone. Buffers and lines are rows of
// cells: a cell is put after the used ones, or one is cut out and those after it move up. What a change asks, every call has tested
// before it. The layout of the ring is the C interface's: so how many cells of a row are used stands in the head and not with the row, and
// phases and flags are bytes.
#![tactic(auto)]

pub mod opening;

ghost use Rattle.std.specs.Prelude.{◌≡◌, ◌<◌, length, eqb};
ghost use Rattle.std.specs.List.{position};
ghost use Rattle.batch.specs.Blank.{no_record};
ghost use Rattle.network.specs.Layout.{node_room, channel_room, row_length, cell_room, record_at};
ghost use Rattle.updates.specs.Flat.{appended, cut_at, recorded, joined, left, shortened, mark_left, responded, used_at};
ghost use Rattle.updates.specs.Known.{CanJoin, CanLeave, CanRespond};

use batch::BatchRecord;
use network::{Cells, Records, Ring};

// A cell is put after the used ones of the row of node `at`.
pub fn put(cells: &mut Cells, at: usize, used: u8, cell: u8)
    requires { (at < node_room) × (used < row_length) }
    ensures { cells.new ≡ appended cells.old at used cell }
{
    let end = network::ROW * at + used as usize;
    cells[end] = cell;
}

// The cell at index `from` of the row of node `at` goes: those after it move up, and the last is zero.
pub fn cut(cells: &mut Cells, at: usize, from: usize)
    requires at_lt_node_room { (at < node_room) × (from < row_length) }
    requires cells_len { length cells.old ≡ cell_room }
    ensures { cells.new ≡ cut_at cells.old at from }
{
    let base = network::ROW * at;
    let end = base + network::ROW;
    cells.copy_within(base + from + 1..end, base + from);
    cells[end - 1] = 0;
}

// The index at which the cell stands first among these.
pub fn index_in(cells: &[u8], cell: u8) -> Option<usize>
    ensures { result ≡ position (λ c. eqb c cell) cells.now }
{
    cells.iter().position(|c| *c == cell)
}

// The record of channel k.
pub fn record_of(records: &Records, k: usize) -> BatchRecord
    requires { k < channel_room }
    ensures { result ≡ record_at records.now k }
{
    wire::record_at(records, wire::RECORD_LENGTH * k)
}

// The record of channel k is this one.
pub fn set_record(records: &mut Records, k: usize, record: BatchRecord)
    requires { k < channel_room }
    ensures { records.new ≡ recorded records.old k «record» }
{
    wire::put_record_at(records, wire::RECORD_LENGTH * k, record);
}

// Channel k has no record.
pub fn clear_record(records: &mut Records, k: usize)
    requires { k < channel_room }
    ensures { records.new ≡ recorded records.old k no_record }
{
    set_record(records, k, BatchRecord::none());
}

// A message joins the line of node `at`.
pub fn join(ring: &mut Ring, at: usize, cell: u8)
    requires { CanJoin ring.old.head at }
    ensures { ring.new ≡ joined ring.old at cell }
{
    let waiting = ring.head.waiting[at];
    put(&mut ring.lines, at, waiting, cell);
    ring.head.waiting[at] = waiting + 1;
}

// The message at index `from` leaves the line of node `at`, and the turn mark is cleared if that leaves the line empty.
pub fn leave_line(ring: &mut Ring, at: usize, from: usize)
    requires { CanLeave ring.old.head at from }
    ensures { ring.new ≡ shortened ring.old at from }
{
    let waiting = ring.head.waiting[at];
    cut(&mut ring.lines, at, from);
    ring.head.waiting[at] = waiting - 1;
    ring.head.marks[at] = mark_left(waiting, ring.head.marks[at]);
}

// The turn mark of a line that one of its `waiting` messages leaves: it is cleared where the line is left empty.
fn mark_left(waiting: u8, mark: u8) -> u8
    ensures { result ≡ mark_left waiting mark }
{
    if 1 < waiting { mark } else { 0 }
}

// The first message leaves the buffer of node `at`.
pub fn leave(ring: &mut Ring, at: usize)
    requires { (at < node_room) × (0 < used_at ring.old.head at) }
    ensures { ring.new ≡ left ring.old at }
{
    cut(&mut ring.slots, at, 0);
    ring.head.used[at] -= 1;
}

// Channel `channel` answers with the record: it is carried, and the response joins the sender node's line.
pub fn respond(ring: &mut Ring, channel: u8, record: BatchRecord)
    requires { CanRespond ring.old.head channel }
    ensures { ring.new ≡ responded ring.old channel «record» }
{
    let k = channel as usize;
    set_record(&mut ring.carried, k, record);
    ring.head.phases[k] = Ring::ANSWERING;
    let sender = ring.head.senders[k] as usize;
    join(ring, sender, channel + 1);
}
