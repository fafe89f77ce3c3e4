// The rows of cells, and where each message stands. The pass over a row notes in a table each channel that it meets, and stops at a channel
// that was met already, or whose message may not stand there.
ghost use Rattle.std.specs.Prelude.{◌≡◌, ◌≤◌, length};
ghost use Rattle.network.specs.Layout.{node_room, channel_room, row_length};
ghost use Rattle.messages.specs.Messages.{mark, cells_in_use, mark_row, mark_rows, Marked};

use crate::may_stand;
use network::{CHANNELS, Head, ROW, Ring};

// Where a message stands: in the buffer of a node, or in its line.
#[derive(Clone, Copy)]
pub enum Place {
    Buffer(u8),
    Line(u8),
}

// Whether the message of each channel was met.
pub type Met = [bool; CHANNELS];

// The used cells of a row: each names a channel in use whose message was met nowhere else and may stand here.
fn mark_cells(head: &Head, place: Place, cells: &[u8], met: &mut Met) -> bool
    requires { head.now.channel_count ≤ channel_room }
    ensures { Marked result met.new (mark head.now place cells.now met.old) }
{
    for number in cells {
        if *number == 0 || head.channel_count < *number {
            return false;
        }
        let channel = (number - 1) as usize;
        if met[channel] || !may_stand(head, channel, place) {
            return false;
        }
        met[channel] = true;
    }
    true
}

// How many cells of a row are not zero.
fn cells_in_use(cells: &[u8]) -> u8
    requires { length cells.now ≡ row_length }
    ensures { result ≡ cells_in_use cells.now }
{
    let mut used: u8 = 0;
    for cell in cells {
        if *cell != 0 {
            used += 1;
        }
    }
    used
}

// A row: as many cells are in use as the node says, and the first ones. So the others are zero.
fn mark_row(head: &Head, place: Place, used: u8, cells: &[u8], met: &mut Met) -> bool
    requires { (head.now.channel_count ≤ channel_room) × (length cells.now ≡ row_length) }
    ensures { Marked result met.new (mark_row head.now place used cells.now met.old) }
{
    if cells_in_use(cells) != used {
        return false;
    }
    let end = used as usize;
    mark_cells(head, place, &cells[..end], met)
}

// The rows of the nodes in use: of each its buffer, then its line. (What the head says of a channel is asked at every cell, so its counts of
// nodes and channels are asked for here and not again. The head has no invariant that would say it: C lends any bytes.)
pub fn mark(ring: &Ring, met: &mut Met) -> bool
    requires { (ring.now.head.node_count ≤ node_room) × (ring.now.head.channel_count ≤ channel_room) }
    ensures { Marked result met.new (mark_rows ring.now ring.now.head.node_count met.old) }
{
    let head = &ring.head;
    for p in 0..head.node_count {
        let node = p as usize;
        let from = ROW * node;
        let to = from + ROW;
        if !mark_row(
            head,
            Place::Buffer(p),
            head.used[node],
            &ring.slots[from..to],
            met,
        ) {
            return false;
        }
        if !mark_row(
            head,
            Place::Line(p),
            head.waiting[node],
            &ring.lines[from..to],
            met,
        ) {
            return false;
        }
    }
    true
}
