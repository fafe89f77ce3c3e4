// The command tape: a reader and a writer of commands (`command`). A tape is a slice of bytes; a command stands at a place of it, its
// command byte first, then its operands, low byte first. Both answer what the definitions in specs/ say of every place,
// every byte and every operand value; what was written reads back, and what was read writes back.
#![tactic(auto)]

ghost use Rattle.std.specs.Prelude.{◌≡◌, ◌≤◌, length, drop};
ghost use Rattle.wire.specs.Bytes.{number_at, overwritten};
ghost use Rattle.wire.specs.Record.{fields_in};
ghost use Rattle.tape.specs.Shape.{width_of, fields_with, bytes_with};
ghost use Rattle.tape.specs.Table.{row_of, row_with, send_code, parts_of};
ghost use Rattle.tape.specs.Tape.{read_at, write_at, after_write, read_number, write_number};
ghost use Rattle.tape.specs.RoundTrip.{ReadsBack, WritesBack};

use batch::sending::{Fields, Scale};
use command::{Action, Command};
use numbers::{ChannelNo, NodeNo};
use refusal::Refusal;
use wire::fields;

// A command that stands on the tape, and the place after it.
#[derive(Clone, Copy)]
pub struct Reading {
    pub command: Command,
    pub next: usize,
}

// The shapes of a command: what follows its command byte.
#[derive(Clone, Copy)]
pub enum Shape {
    Bare,
    Byte,
    TwoBytes,
    ByteAndFields,
}

// A command byte's row of the table: the shape of its command, and the action that its operands make.
#[derive(Clone, Copy)]
pub struct Row {
    pub shape: Shape,
    pub action: Action,
}

// The command byte of an action, and its operands of one byte, 0 where it has none: the zeros are written nowhere, and C's struct of a
// command has them so.
#[derive(Clone, Copy)]
pub struct Parts {
    pub code: u8,
    pub first: u8,
    pub second: u8,
}

// The table, to read: a line for each command.
#[tactic(auto, unfolding(crate::specs::Table::row_of, crate::specs::Table::find, crate::specs::Table::commands))]
pub fn row_of(code: u8, first: u8, second: u8) -> Option<Row>
    ensures { result ≡ row_with (row_of code) first second }
{
    let (shape, action) = match code {
        0x10 => (Shape::Byte, Action::AddNode(first)),
        0x11 => (
            Shape::TwoBytes,
            Action::AddChannel(NodeNo(first), NodeNo(second)),
        ),
        0x12 => (Shape::Bare, Action::Start),
        0x20 => (Shape::Byte, Action::Receive(ChannelNo(first))),
        0x21 => (
            Shape::ByteAndFields,
            Action::Send(ChannelNo(first), Scale::Tenths),
        ),
        0x22 => (Shape::Byte, Action::Enter(NodeNo(first))),
        0x23 => (Shape::Byte, Action::Move(NodeNo(first))),
        0x24 => (Shape::Byte, Action::Withdraw(ChannelNo(first))),
        0x25 => (
            Shape::ByteAndFields,
            Action::Send(ChannelNo(first), Scale::Hundredths),
        ),
        _ => return None,
    };
    Some(Row { shape, action })
}

// The command byte of a send, by the unit of its temperature.
fn send_code(scale: Scale) -> u8
    ensures { result ≡ send_code scale }
{
    match scale {
        Scale::Tenths => 0x21,
        Scale::Hundredths => 0x25,
    }
}

// The table, to write: a line for each action.
pub fn parts_of(action: Action) -> Parts
    ensures { result ≡ parts_of action }
{
    let (code, first, second) = match action {
        Action::AddNode(slots) => (0x10, slots, 0),
        Action::AddChannel(sender, receiver) => (0x11, sender.0, receiver.0),
        Action::Start => (0x12, 0, 0),
        Action::Receive(channel) => (0x20, channel.0, 0),
        Action::Send(channel, scale) => (send_code(scale), channel.0, 0),
        Action::Enter(node) => (0x22, node.0, 0),
        Action::Move(node) => (0x23, node.0, 0),
        Action::Withdraw(channel) => (0x24, channel.0, 0),
    };
    Parts {
        code,
        first,
        second,
    }
}

// How many bytes a command of a shape takes, its command byte among them.
fn width_of(shape: Shape) -> usize
    ensures { result ≡ width_of shape }
{
    match shape {
        Shape::Bare => 1,
        Shape::Byte => 2,
        Shape::TwoBytes => 3,
        Shape::ByteAndFields => 2 + wire::RECORD_LENGTH,
    }
}

// The operand of one byte at a place after the command byte, 0 where the bytes have ended.
fn operand_at(bytes: &[u8], at: usize) -> u8
    ensures { result ≡ number_at at 1 bytes.now }
{
    bytes.get(at).copied().unwrap_or(0)
}

// The row of a command byte, with the operands that follow it at the front of the bytes.
fn row_in(code: u8, bytes: &[u8]) -> Option<Row>
    ensures { result ≡ row_with (row_of code) (number_at 1 1 bytes.now) (number_at 2 1 bytes.now) }
{
    row_of(code, operand_at(bytes, 1), operand_at(bytes, 2))
}

// The fields of a command whose bytes begin here and are all there; the blank ones where its shape has none.
fn fields_in(shape: Shape, bytes: &[u8]) -> Fields
    requires { width_of shape ≤ length bytes.now }
    ensures { result ≡ fields_with shape (fields_in (drop 2 bytes.now)) }
{
    if matches!(shape, Shape::ByteAndFields) {
        wire::fields_in(&bytes[2..])
    } else {
        Fields::none()
    }
}

// Reads the command at a place of the tape: refused with 24, none at the end, refused with 22 or 23, or the command and the next place.
pub fn read(bytes: &[u8], place: usize) -> Result<Option<Reading>, Refusal>
    ensures answer { result ≡ read_at bytes.now place }
    ensures writes_back { WritesBack result bytes.now place }
    ensures number { read_number result ≡ read_number (read_at bytes.now place) }
{
    let rest = bytes.get(place..).ok_or(Refusal::PlaceBeyondEnd)?;
    let Some(&code) = rest.first() else {
        return Ok(None);
    };
    let row = row_in(code, rest).ok_or(Refusal::UnknownCommand)?;
    let width = width_of(row.shape);
    if rest.len() < width {
        return Err(Refusal::CommandCut);
    }
    let command = Command {
        action: row.action,
        fields: fields_in(row.shape, rest),
    };
    let next = place + width;
    Ok(Some(Reading { command, next }))
}

// Puts a command's bytes at the front of a buffer with room for them.
fn put_command(bytes: &mut [u8], shape: Shape, parts: Parts, sent: Fields)
    requires { width_of shape ≤ length bytes.old }
    ensures { bytes.new
        ≡ overwritten bytes.old 0 (bytes_with shape parts sent) }
{
    match shape {
        Shape::Bare => fields::put_u8(bytes, parts.code),
        Shape::Byte => fields::put_pair(bytes, parts.code, parts.first),
        Shape::TwoBytes => {
            fields::put_pair(bytes, parts.code, parts.first);
            fields::put_u8(&mut bytes[2..], parts.second);
        }
        Shape::ByteAndFields => {
            fields::put_pair(bytes, parts.code, parts.first);
            wire::put_fields(&mut bytes[2..], sent);
        }
    }
}

// Writes a command at a place of the tape, and nothing before or past it: refused with 24 or 26, or the next place.
#[tactic(auto, unfolding(crate::specs::Tape::write_at, crate::specs::Tape::after_write))]
pub fn write(bytes: &mut [u8], place: usize, command: Command) -> Result<usize, Refusal>
    ensures answer { result ≡ write_at bytes.old place command }
    ensures buffer { bytes.new ≡ after_write result bytes.old place command }
    ensures reads_back { ReadsBack result bytes.new place command }
    ensures number { write_number result ≡ write_number (write_at bytes.old place command) }
{
    // By the length, and no `get_mut`: of its slice the library does not say what it ends as.
    if bytes.len() < place {
        return Err(Refusal::PlaceBeyondEnd);
    }
    let parts = parts_of(command.action);
    // The command byte of every action has a row.
    let row = row_of(parts.code, parts.first, parts.second).unwrap();
    let width = width_of(row.shape);
    if bytes.len() - place < width {
        return Err(Refusal::NoRoomToWrite);
    }
    put_command(&mut bytes[place..], row.shape, parts, command.fields);
    Ok(place + width)
}
