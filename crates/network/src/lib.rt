// The ring of document 01 as it lies in memory, and the types of its calls. No operation is coded here: the definitions that every
// contract cites stand in specs/, and the theorems about them in proofs/.
//
// Every field of the ring is an integer or an array of bytes, and every byte of a ring is part of a field. So every pattern of bytes that
// is lent as a ring is a value, which the test for a sound ring judges; and a ring can be lent to C, compared and stored as memory.
#![tactic(auto)]

ghost use Rattle.std.specs.Prelude.{◌≡◌};
ghost use Rattle.network.specs.Layout.{fresh_ring};
ghost use Rattle.network.specs.Sound.{next_count};

use batch::BatchRecord;
use numbers::ChannelNo;
use refusal::Refusal;
use wire;

// The sizes of the arrays: how many nodes and channels there is room for, and how many cells the row of a node has. What document 01
// allows are the limits of `Ring`, below.
pub const NODES: usize = 16;

pub const CHANNELS: usize = 64;

pub const ROW: usize = 64;

pub const CELLS: usize = NODES * ROW;

pub const RECORDS: usize = CHANNELS * wire::RECORD_LENGTH;

// A byte for each node or channel, by number; a row of cells for each node; and the bytes of a record for each channel.
pub type ByNode = [u8; NODES];

pub type ByChannel = [u8; CHANNELS];

pub type Cells = [u8; CELLS];

pub type Records = [u8; RECORDS];

// A ring but for its cells and its records.
#[repr(C)]
#[derive(Clone, Copy)]
pub struct Head {
    // How many records were delivered; the count stops at the largest number.
    pub deliveries: u32,
    pub started: u8,
    pub node_count: u8,
    pub channel_count: u8,
    // Always zero: it takes the place that would be padding.
    pub spare: u8,
    // Of each node: how many slots its buffer has, and how many of them are used.
    pub capacity: ByNode,
    pub used: ByNode,
    // How long its line is: document 01's word for the node's own messages that wait to enter the buffer.
    pub waiting: ByNode,
    // The turn mark, 0 or 1: the line goes before passing traffic.
    pub marks: ByNode,
    // Of each channel: its two nodes, one of the four phases of `Ring`, and 1 where a record is offered.
    pub senders: ByChannel,
    pub receivers: ByChannel,
    pub phases: ByChannel,
    pub offered: ByChannel,
}

// A ring. Node p's row of `slots` is its buffer and its row of `lines` its line: a used cell holds channel number + 1, oldest first.
// Channel k's bytes of `offers` are the record offered, and those of `carried` the one that its response carries. Every cell and byte
// that holds nothing is zero.
#[repr(C)]
#[derive(Clone, Copy)]
pub struct Ring {
    pub head: Head,
    pub slots: Cells,
    pub lines: Cells,
    pub offers: Records,
    pub carried: Records,
}

impl Ring {
    // The limits belong to the ring: nodes, channels, and slots of a node.
    pub const MOST_NODES: u8 = 16;

    pub const MOST_CHANNELS: u8 = 64;

    pub const MOST_SLOTS: u8 = 64;

    // The phases of a channel, numbers and no enum: the ring is lent by C, and whatever byte stands there is a value. Nothing is under way.
    pub const RESTING: u8 = 0;
    // Its request is on the ring.
    pub const ASKING: u8 = 1;
    // The request arrived and no record was offered.
    pub const READY: u8 = 2;
    // Its response is on the ring, with the record carried.
    pub const ANSWERING: u8 = 3;

    // A fresh ring has no node, no channel and all slot cells empty.
    pub fn fresh() -> Ring
        ensures { result ≡ fresh_ring }
    {
        let head = Head {
            deliveries: 0,
            started: 0,
            node_count: 0,
            channel_count: 0,
            spare: 0,
            capacity: [0; NODES],
            used: [0; NODES],
            waiting: [0; NODES],
            marks: [0; NODES],
            senders: [0; CHANNELS],
            receivers: [0; CHANNELS],
            phases: [0; CHANNELS],
            offered: [0; CHANNELS],
        };
        Ring {
            head,
            slots: [0; 1024],
            lines: [0; CELLS],
            offers: [0; RECORDS],
            carried: [0; RECORDS],
        }
    }
}

// A count after one more: it stops at the largest number.
#[tactic(auto, unfolding(crate::specs::Sound::next_count))]
pub fn one_more(count: u32) -> u32
    ensures { result ≡ next_count count }
{
    count.saturating_add(1)
}

// What an accepted call has to say.
#[derive(Clone, Copy)]
pub enum Answer {
    Done,
    // A move that delivered: the channel, and the record.
    Delivered(ChannelNo, BatchRecord),
    // Hops left.
    Hops(u8),
    // A waiting set, channel 0 being the lowest bit.
    Waiting(u64),
}

// What a call answers: what an accepted call has to say, or the refusal.
pub type Reply = Result<Answer, Refusal>;

// The ring after a call by value, and its reply. (`Step` and `DispatchStep` are two types, since the promises name their fields:
// specs/Promise, specs/Dispatcher.)
#[derive(Clone, Copy)]
pub struct Step {
    pub ring: Ring,
    pub reply: Reply,
}

// What the dispatcher did: how many rounds it made, and its deliveries in order. There are `count` of them, at most one for each channel:
// the first was on the first of the channels with the first of the records, and zeros stand behind the last. (The two arrays stand side
// by side as in `answered` of specs/Dispatcher, and as C's struct of it has them.)
#[derive(Clone, Copy)]
pub struct Dispatched {
    pub rounds: u16,
    pub count: u8,
    pub channels: ByChannel,
    pub records: [BatchRecord; CHANNELS],
}

// The ring after a call of the dispatcher by value, and what it did, or the refusal.
#[derive(Clone, Copy)]
pub struct DispatchStep {
    pub ring: Ring,
    pub dispatched: Result<Dispatched, Refusal>,
}
