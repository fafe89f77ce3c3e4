// What can be asked of a ring: a command, which may change it, and a question, which leaves it as it is. The tape reads and writes commands;
// `perform` of `calls` makes them, and `ask` asks the questions.
#![tactic(auto)]

ghost use Rattle.std.specs.Prelude.{◌≡◌};
ghost use Rattle.command.specs.declared.Action.TheVariants.{AddNode, AddChannel, Start, Receive, Send, Enter, Move, Withdraw};
ghost use Rattle.command.specs.declared.Question.TheVariants as question;
ghost use Rattle.command.specs.Bare.{bare_of};

use batch::sending::{Fields, Scale};
use numbers::{ChannelNo, NodeNo};

// What a command does, with its operands of one byte, each of any value. A send keeps the unit of its temperature, by which it is one
// command of the tape or another.
#[derive(Clone, Copy)]
pub enum Action {
    // How many slots.
    AddNode(u8),
    // Sender and receiver.
    AddChannel(NodeNo, NodeNo),
    Start,
    Receive(ChannelNo),
    Send(ChannelNo, Scale),
    Enter(NodeNo),
    Move(NodeNo),
    Withdraw(ChannelNo),
}

// A command. Only a send has fields, as it gives them; those beside any other action say nothing. They stand beside the action and not in
// it, since the tape's theorem WrittenReadsBack, with SameCommand, speaks of commands with needless fields.
#[derive(Clone, Copy)]
pub struct Command {
    pub action: Action,
    pub fields: Fields,
}

#[derive(Clone, Copy)]
pub enum Question {
    HopsLeft(ChannelNo),
    WaitingSet(NodeNo),
}

// The command of an action that has no fields.
pub fn bare(action: Action) -> Command
    ensures { result ≡ bare_of action }
{
    Command {
        action,
        fields: Fields::none(),
    }
}

// The commands and the questions by name.

pub fn add_node(slots: u8) -> Command
    ensures { result ≡ bare_of (AddNode slots) }
{
    bare(Action::AddNode(slots))
}

pub fn add_channel(sender: NodeNo, receiver: NodeNo) -> Command
    ensures { result ≡ bare_of (AddChannel sender receiver) }
{
    bare(Action::AddChannel(sender, receiver))
}

pub fn start() -> Command
    ensures { result ≡ bare_of Start }
{
    bare(Action::Start)
}

pub fn receive(channel: ChannelNo) -> Command
    ensures { result ≡ bare_of (Receive channel) }
{
    bare(Action::Receive(channel))
}

// The unit is that of the temperature in the fields.
pub fn send(channel: ChannelNo, scale: Scale, fields: Fields) -> Command
    ensures { result ≡ record { action = Send channel scale; fields = fields } }
{
    Command {
        action: Action::Send(channel, scale),
        fields,
    }
}

pub fn enter(node: NodeNo) -> Command
    ensures { result ≡ bare_of (Enter node) }
{
    bare(Action::Enter(node))
}

pub fn move_on(node: NodeNo) -> Command
    ensures { result ≡ bare_of (Move node) }
{
    bare(Action::Move(node))
}

pub fn withdraw(channel: ChannelNo) -> Command
    ensures { result ≡ bare_of (Withdraw channel) }
{
    bare(Action::Withdraw(channel))
}

pub fn hops_left(channel: ChannelNo) -> Question
    ensures { result ≡ question.HopsLeft channel }
{
    Question::HopsLeft(channel)
}

pub fn waiting_set(node: NodeNo) -> Question
    ensures { result ≡ question.WaitingSet node }
{
    Question::WaitingSet(node)
}
