// The refusals of the vessel ring, one list for every operation: each has a name, a number and one meaning.
// The number is what a caller and a fitter see (docs/REFUSALS.md); an operation answers the first refusal that applies.
#![tactic(auto)]

ghost use Rattle.std.specs.Prelude.{◌≡◌};
ghost use Rattle.refusal.specs.Number.{number_of, number_in};

#[derive(Clone, Copy, PartialEq, Eq, Debug)]
pub enum Refusal {
    // The ring has already started.
    AlreadyStarted = 1,
    // Sixteen nodes stand already.
    NodesFull = 2,
    // A node has 1 to 64 slots, and this number is not among them.
    BadSlots = 3,
    // Sixty-four channels stand already.
    ChannelsFull = 4,
    // The sender or the receiver of the channel is not a node added so far.
    NoSuchEnd = 5,
    // There is no node, or no channel.
    NothingToStart = 6,
    // The slots of all nodes together are not more than the channels.
    TooFewSlots = 7,
    // The ring has not started.
    NotStarted = 8,
    // There is no channel of this number.
    NoSuchChannel = 9,
    // The channel is not resting.
    NotResting = 10,
    // The record's batch number is 0.
    BatchNumberZero = 11,
    // The record's temperature is out of range.
    TemperatureOutOfRange = 12,
    // The record's name length is over 32.
    NameTooLong = 13,
    // A byte of the record's name, or of the fill after it, is wrong.
    BadName = 14,
    // A record is already offered on the channel.
    AlreadyOffered = 15,
    // There is no node of this number.
    NoSuchNode = 16,
    // The node's line is empty.
    LineEmpty = 17,
    // The node has no free slot.
    NoFreeSlot = 18,
    // The node's buffer is empty.
    BufferEmpty = 19,
    // The next node has no free slot for a message that goes on.
    NextBufferFull = 20,
    // The next node's turn mark is set: its own line goes first.
    TurnMarkSet = 21,
    // The command byte is none of the tape's.
    UnknownCommand = 22,
    // Fewer bytes are left than the command is wide.
    CommandCut = 23,
    // The place is beyond the length of the bytes.
    PlaceBeyondEnd = 24,
    // The ring or the history table handed in is not sound.
    UnsoundRing = 25,
    // There are fewer bytes from the place on than the command is wide.
    NoRoomToWrite = 26,
    // The channel is not asking.
    NotAsking = 27,
    // The channel's request is in a buffer.
    RequestInBuffer = 28,
    // The batch has no row in the history table, and no row is empty.
    NoEmptyRow = 29,
    // The record's name begins or ends with a blank.
    BlankEnd = 30,
}

// What a test, or a call that answers nothing more, comes to: it passed, or the first refusal that applies.
pub type Verdict = Result<(), Refusal>;

impl Refusal {
    // The number of the refusal, from 1 to 30.
    pub fn number(self) -> u8
        ensures { result ≡ number_of self }
    {
        self as u8
    }
}

// The number of the refusal in an answer of any kind, or 0 where there is none.
pub fn number_in<T>(answer: &Result<T, Refusal>) -> u8
    ensures { result ≡ number_in answer.now }
{
    match answer {
        Ok(_) => 0,
        Err(refusal) => refusal.number(),
    }
}
