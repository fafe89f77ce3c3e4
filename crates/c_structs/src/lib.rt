// The structs that C sees, and what stands between them and the ring: commands and questions made of plain numbers, and replies and answers
// told in plain numbers. `commands` has the tape's commands, `tables` what the history says. A batch record, and the fields of a send, go to
// C and come from it as they are. `vessel_ring` exports all this.
//
// The C interface (include/vessel_ring.h) needs the form of these structs: a refusal's number, 0 where there is none, and a flag beside the
// values, where the crates below have Result and Option; two arrays and a count for the deliveries; a command byte for an action.
#![tactic(auto)]

pub mod commands;
pub mod tables;

ghost use Rattle.std.specs.Prelude.{◌≡◌};
ghost use Rattle.batch.specs.declared.sending.Scale.TheVariants.{Tenths, Hundredths};
ghost use Rattle.command.specs.declared.Action.TheVariants.{AddChannel, Receive, Send, Enter, Move, Withdraw};
ghost use Rattle.command.specs.declared.Question.TheVariants as question;
ghost use Rattle.command.specs.Bare.{bare_of};
ghost use Rattle.network.specs.Counting.{one};
ghost use Rattle.network.specs.Network.{node_no, channel_no};
ghost use Rattle.network.specs.Answers.{number_in};
ghost use Rattle.c_structs.specs.Answers.{no_delivery, delivery_in, rounds_in, hops_left_in, set_in, waiting_in};

use batch::BatchRecord;
use batch::sending::{Fields, Scale};
use command;
use network::{Answer, Dispatched, Reply};
use numbers::{ChannelNo, NodeNo};
use refusal::Refusal;

// What a move answers. `delivered` is 1 where it delivered; elsewhere the channel and the record are zero.
#[repr(C)]
#[derive(Clone, Copy)]
pub struct Delivery {
    pub refusal: u8,
    pub delivered: u8,
    pub channel: u8,
    pub record: BatchRecord,
}

// What the dispatcher answers: the rounds that it made, and its deliveries in order, each with its channel and its record; zeros stand
// behind them.
#[repr(C)]
#[derive(Clone, Copy)]
pub struct Rounds {
    pub rounds: u16,
    pub refusal: u8,
    pub count: u8,
    pub channels: [u8; 64],
    pub records: [BatchRecord; 64],
}

#[repr(C)]
#[derive(Clone, Copy)]
pub struct HopsLeft {
    pub refusal: u8,
    pub hops: u8,
}

// The channels on which a node's tasks wait, channel 0 being the lowest bit, and how many they are.
#[repr(C)]
#[derive(Clone, Copy)]
pub struct Waiting {
    pub set: u64,
    pub tasks: u32,
    pub refusal: u8,
}

// The figures of a batch. `held` is 1 where the table has a row of it; elsewhere the three figures are zero.
#[repr(C)]
#[derive(Clone, Copy)]
pub struct BatchFigures {
    pub sum: i32,
    pub lowest: i16,
    pub highest: i16,
    pub refusal: u8,
    pub held: u8,
}

// The batch of a row of a history table; zero where there is none.
#[repr(C)]
#[derive(Clone, Copy)]
pub struct RowBatch {
    pub batch: u32,
    pub refusal: u8,
}

// A command of the tape: its command byte, its operands of one byte, and the fields of a send; zeros where it has none.
#[repr(C)]
#[derive(Clone, Copy)]
pub struct Command {
    pub code: u8,
    pub first: u8,
    pub second: u8,
    pub fields: Fields,
}

// What stands at a place of the tape: a refusal, the end, or a command and the place after it.
#[repr(C)]
#[derive(Clone, Copy)]
pub struct Reading {
    pub next: usize,
    pub refusal: u8,
    pub end: u8,
    pub command: Command,
}

// The place after the command that was written, or the refusal.
#[repr(C)]
#[derive(Clone, Copy)]
pub struct Writing {
    pub next: usize,
    pub refusal: u8,
}

// The refusal's number in a reply, or 0.
pub fn refusal_in(reply: Reply) -> u8
    ensures { result ≡ number_in reply }
{
    refusal::number_in(&reply)
}

fn no_delivery(refusal: u8) -> Delivery
    ensures { result ≡ no_delivery refusal }
{
    Delivery {
        refusal,
        delivered: 0,
        channel: 0,
        record: BatchRecord::none(),
    }
}

pub fn delivery_in(reply: Reply) -> Delivery
    ensures { result ≡ delivery_in reply }
{
    match reply {
        Ok(Answer::Delivered(channel, record)) => Delivery {
            refusal: 0,
            delivered: 1,
            channel: channel.0,
            record,
        },
        Ok(_) => no_delivery(0),
        Err(refusal) => no_delivery(refusal.number()),
    }
}

pub fn rounds_in(dispatched: Result<Dispatched, Refusal>) -> Rounds
    ensures { result ≡ rounds_in dispatched }
{
    match dispatched {
        Ok(made) => {
            let channels = made.channels;
            let records = made.records;
            Rounds {
                rounds: made.rounds,
                refusal: 0,
                count: made.count,
                channels,
                records,
            }
        }
        Err(refusal) => Rounds {
            rounds: 0,
            refusal: refusal.number(),
            count: 0,
            channels: [0; 64],
            records: [BatchRecord::none(); 64],
        },
    }
}

pub fn hops_in(reply: Reply) -> HopsLeft
    ensures { result ≡ hops_left_in reply }
{
    match reply {
        Ok(Answer::Hops(hops)) => HopsLeft { refusal: 0, hops },
        Ok(_) => HopsLeft {
            refusal: 0,
            hops: 0,
        },
        Err(refusal) => HopsLeft {
            refusal: refusal.number(),
            hops: 0,
        },
    }
}

// The set in a reply with a waiting set, or the empty one.
fn set_in(reply: Reply) -> u64
    ensures { result ≡ set_in reply }
{
    match reply {
        Ok(Answer::Waiting(set)) => set,
        _ => 0,
    }
}

pub fn waiting_in(reply: Reply) -> Waiting
    ensures { result ≡ waiting_in reply }
{
    let set = set_in(reply);
    Waiting {
        set,
        tasks: questions::waiting_tasks(set),
        refusal: refusal_in(reply),
    }
}

// 1 for true, 0 for false.
pub fn flag(b: bool) -> u8
    ensures { result ≡ one b }
{
    u8::from(b)
}

// The commands and the questions by their numbers, one for each exported call: the C interface gives bare numbers.

pub fn add_channel(sender: u8, receiver: u8) -> command::Command
    ensures { result ≡ bare_of (AddChannel (node_no sender) (node_no receiver)) }
{
    command::add_channel(NodeNo(sender), NodeNo(receiver))
}

pub fn receive(channel: u8) -> command::Command
    ensures { result ≡ bare_of (Receive (channel_no channel)) }
{
    command::receive(ChannelNo(channel))
}

pub fn send(channel: u8, fields: Fields) -> command::Command
    ensures { result ≡ record { action = Send (channel_no channel) Hundredths; fields = fields } }
{
    command::send(ChannelNo(channel), Scale::Hundredths, fields)
}

pub fn send_tenths(channel: u8, fields: Fields) -> command::Command
    ensures { result ≡ record { action = Send (channel_no channel) Tenths; fields = fields } }
{
    command::send(ChannelNo(channel), Scale::Tenths, fields)
}

pub fn enter(node: u8) -> command::Command
    ensures { result ≡ bare_of (Enter (node_no node)) }
{
    command::enter(NodeNo(node))
}

pub fn move_on(node: u8) -> command::Command
    ensures { result ≡ bare_of (Move (node_no node)) }
{
    command::move_on(NodeNo(node))
}

pub fn withdraw(channel: u8) -> command::Command
    ensures { result ≡ bare_of (Withdraw (channel_no channel)) }
{
    command::withdraw(ChannelNo(channel))
}

pub fn hops_left(channel: u8) -> command::Question
    ensures { result ≡ question.HopsLeft (channel_no channel) }
{
    command::hops_left(ChannelNo(channel))
}

pub fn waiting_set(node: u8) -> command::Question
    ensures { result ≡ question.WaitingSet (node_no node) }
{
    command::waiting_set(NodeNo(node))
}
