// Runs a command tape: reads each command, calls the ring and writes the command's line of the listing into a lent buffer, as many
// whole lines at a time as have room. A session is what is kept between two runs; it may be any value at all, so no run asks anything.
#![tactic(auto)]

ghost use Rattle.std.specs.Prelude.{◌≡◌, ◌+◌, ◌≤◌, length, get_or};
ghost use Rattle.network.specs.Sound.{next_count};
ghost use Rattle.report.specs.Line.{line_room};
ghost use Rattle.runner.specs.Session.{beginning, next, passed, answered};
ghost use Rattle.runner.specs.Run.{TapeRan, PrintedPut};

use calls;
use network::{Reply, Ring};

// The longest tape that is run.
pub const LONGEST_TAPE: usize = 60000;

// Where a run of a tape stands.
#[derive(Clone, Copy)]
pub struct Session {
    pub ring: Ring,
    // The place of the next command on the tape.
    pub place: usize,
    // The number of the next command, from 1.
    pub number: u32,
    // How many commands were accepted, and how many refused. Each count stops at the largest number.
    pub accepted: u32,
    pub refused: u32,
    // The last line was written.
    pub over: bool,
}

impl Session {
    // A fresh ring, and the tape's first command.
    pub fn begin() -> Session
        ensures { result ≡ beginning }
    {
        let ring = Ring::fresh();
        Session {
            ring,
            place: 0,
            number: 1,
            accepted: 0,
            refused: 0,
            over: false,
        }
    }

    // Counts a command with this reply; the run goes on from the next place.
    fn count(&mut self, reply: Reply, next: usize)
        ensures { self.new ≡ passed next_count self.old (record { ring = self.old.ring; reply = reply }) next }
    {
        self.place = next;
        self.number = network::one_more(self.number);
        if reply.is_err() {
            self.refused = network::one_more(self.refused);
        } else {
            self.accepted = network::one_more(self.accepted);
        }
    }
}

// Writes the line of a command with this reply at a place of the buffer, counts the command, and answers the place after the line. (A
// line that has no room would leave the place; there is room for any.)
fn told(
    tape: &[u8],
    session: &mut Session,
    reply: Reply,
    next: usize,
    out: &mut [u8],
    at: usize,
) -> usize
    requires { at + line_room ≤ length out.old }
    ensures { PrintedPut (answered next_count tape.now session.old (record { ring = session.old.ring; reply = reply }) next)
        at out.old out.new session.new result }
{
    let code = tape.get(session.place).copied().unwrap_or(0);
    let end = report::write_line(out, at, session.number, code, reply);
    session.count(reply, next);
    end.unwrap_or(at)
}

// Writes the next line of a session at a place of the buffer, and answers the place after it. (The tape, the session and the buffer are lent
// by the caller of `run` each by itself, and stay so.) What the line says goes by the tape's length
// and by what is read at the session's place.
fn next_line(tape: &[u8], session: &mut Session, out: &mut [u8], at: usize) -> usize
    requires { at + line_room ≤ length out.old }
    ensures { PrintedPut (next next_count tape.now session.old) at out.old out.new session.new result }
{
    if LONGEST_TAPE < tape.len() {
        session.over = true;
        return report::write_too_long(out, at).unwrap_or(at);
    }
    match tape::read(tape, session.place) {
        Ok(Some(reading)) => {
            let reply = calls::perform(&mut session.ring, reading.command);
            told(tape, session, reply, reading.next, out, at)
        }
        Ok(None) => {
            session.over = true;
            report::write_end(out, at, session.accepted, session.refused).unwrap_or(at)
        }
        Err(refusal) => told(tape, session, Err(refusal), tape.len(), out, at),
    }
}

// Runs the tape on from a session: whole lines into the buffer, as long as there is room for any line and one to come. Answers how many
// bytes were written. A caller runs until the session is over, and prints what was written each time.
pub fn run(tape: &[u8], session: &mut Session, out: &mut [u8]) -> usize
    ensures { TapeRan tape.now session.old out.old out.new session.new result }
{
    let mut written = 0;
    while !session.over {
        if out.len() - written < report::LINE_ROOM {
            break;
        }
        written = next_line(tape, session, out, written);
    }
    written
}
