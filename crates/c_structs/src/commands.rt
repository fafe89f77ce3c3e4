// A command of the tape in plain numbers, and what reading and writing one answers.
ghost use Rattle.std.specs.Prelude.{◌≡◌};
ghost use Rattle.c_structs.specs.Commands.{command_of, nothing_read, reading_in, action_of, writing_in, writing_to, after_writing};

use crate::{Command, Reading, Writing};
use batch::sending::Fields;
use command::Action;
use refusal::Refusal;

fn command_of(action: Action, fields: Fields) -> Command
    ensures { result ≡ command_of action fields }
{
    let parts = tape::parts_of(action);
    Command {
        code: parts.code,
        first: parts.first,
        second: parts.second,
        fields,
    }
}

// Where there is no command, its command byte is 0, which no command has.
fn nothing_read(refusal: u8, end: u8) -> Reading
    ensures { result ≡ nothing_read refusal end }
{
    Reading {
        next: 0,
        refusal,
        end,
        command: Command {
            code: 0,
            first: 0,
            second: 0,
            fields: Fields::none(),
        },
    }
}

pub fn reading_of(reading: Result<Option<tape::Reading>, Refusal>) -> Reading
    ensures { result ≡ reading_in reading }
{
    match reading {
        Ok(Some(read)) => Reading {
            next: read.next,
            refusal: 0,
            end: 0,
            command: command_of(read.command.action, read.command.fields),
        },
        Ok(None) => nothing_read(0, 1),
        Err(refusal) => nothing_read(refusal.number(), 0),
    }
}

// What a command byte and its operands stand for, if anything.
fn action_of(code: u8, first: u8, second: u8) -> Option<Action>
    ensures { result ≡ action_of code first second }
{
    let row = tape::row_of(code, first, second)?;
    Some(row.action)
}

fn writing_of(answer: Result<usize, Refusal>) -> Writing
    ensures { result ≡ writing_in answer }
{
    match answer {
        Ok(next) => Writing { next, refusal: 0 },
        Err(refusal) => Writing {
            next: 0,
            refusal: refusal.number(),
        },
    }
}

// Writes a command at a place. A command byte that the tape does not have is refused with 22, before the tape is looked at.
pub fn write(bytes: &mut [u8], place: usize, command: Command) -> Writing
    ensures { (result ≡ writing_to bytes.old place command)
        × (bytes.new ≡ after_writing bytes.old place command) }
{
    let Some(action) = action_of(command.code, command.first, command.second) else {
        return writing_of(Err(Refusal::UnknownCommand));
    };
    let fields = command.fields;
    writing_of(tape::write(bytes, place, command::Command { action, fields }))
}
