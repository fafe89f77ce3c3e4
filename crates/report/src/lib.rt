// The report of the tape program: each of its lines as bytes put into a lent buffer, the whole line where it fits and nothing
// where it does not. A line is built by itself first, so a refusal leaves the buffer as it was.
#![tactic(auto)]

ghost use Rattle.std.specs.Prelude.{◌++◌, ◌≡◌, ◌+◌, ◌≤◌, length};
ghost use Rattle.network.specs.Answers.{delivered_in};
ghost use Rattle.text.specs.Appends.{Appends};
ghost use Rattle.report.specs.Line.{line_room, delivered_bytes, record_fields, delivery_bytes, line_of, end_of, too_long};
ghost use Rattle.report.specs.Put.{put_answer, put};

use batch::BatchRecord;
use network::{Answer, Reply};
use numbers::ChannelNo;

// Room for any line.
pub const LINE_ROOM: usize = 160;

type Line = text::Line<LINE_ROOM>;

// What a delivery has after the refusal's number: the word of 10 bytes, a byte's number and its space 4, the batch number's 11, the
// temperature's 7, a name 33.
fn push_record(line: &mut Line, channel: ChannelNo, delivered: BatchRecord)
    requires { length line.old + 73 ≤ line_room }
    ensures { Appends line.old line.new (delivered_bytes ++ record_fields channel delivered) 73 }
{
    line.push_all(b" delivered");
    line.push_field(channel.0);
    line.push_field(delivered.batch.0);
    line.push_field(delivered.vessel);
    line.push_field(delivered.temperature);
    line.push_field(delivered.name_length);
    line.push_name(delivered.name_length, &delivered.name);
}

// The delivery in a reply, or nothing where it has none.
fn push_delivery(line: &mut Line, reply: Reply)
    requires { length line.old + 73 ≤ line_room }
    ensures { Appends line.old line.new (delivery_bytes (delivered_in reply)) 73 }
{
    if let Ok(Answer::Delivered(channel, record)) = reply {
        push_record(line, channel, record);
    }
}

// Puts a line at a place of the buffer, or nothing where it does not fit from there on. The place comes beside the buffer, since the
// promise is of the whole buffer: where there is no room it is as it was, and where there is, but for the line.
fn put(bytes: &mut [u8], place: usize, line: &Line) -> Option<usize>
    ensures value { result ≡ put_answer bytes.old place line.now }
    ensures bytes_after { bytes.new ≡ put bytes.old place line.now }
    ensures within { length line.now ≤ line_room }
{
    let text = line.as_bytes();
    let room = bytes.len().checked_sub(place)?;
    if room < text.len() {
        return None;
    }
    let end = place + text.len();
    bytes[place..end].copy_from_slice(text);
    Some(end)
}

// A command's line: its number from 1, the command byte, the refusal or 0, and what was delivered.
fn line_of(number: u32, command: u8, reply: Reply) -> Line
    ensures { result ≡ line_of number command reply }
{
    let mut line = Line::new();
    line.push_number(number);
    line.push_hex(command);
    line.push_field(refusal::number_in(&reply));
    push_delivery(&mut line, reply);
    line.push(b'\n');
    line
}

// The last line: how many commands were accepted, and how many refused.
fn end_of(accepted: u32, refused: u32) -> Line
    ensures { result ≡ end_of accepted refused }
{
    let mut line = Line::new();
    line.push_all(b"end");
    line.push_field(accepted);
    line.push_field(refused);
    line.push(b'\n');
    line
}

// The only line of a tape that is too long.
fn too_long() -> Line
    ensures { result ≡ too_long }
{
    let mut line = Line::new();
    line.push_all(b"too long\n");
    line
}

// Writes a command's line at a place of the buffer: the place after it, or nothing where it does not fit.
pub fn write_line(
    bytes: &mut [u8],
    place: usize,
    number: u32,
    command: u8,
    reply: Reply,
) -> Option<usize>
    ensures value { result ≡ put_answer bytes.old place (line_of number command reply) }
    ensures bytes_after { bytes.new ≡ put bytes.old place (line_of number command reply) }
    ensures within { length (line_of number command reply) ≤ line_room }
{
    put(bytes, place, &line_of(number, command, reply))
}

// Writes the last line in the same way.
pub fn write_end(bytes: &mut [u8], place: usize, accepted: u32, refused: u32) -> Option<usize>
    ensures value { result ≡ put_answer bytes.old place (end_of accepted refused) }
    ensures bytes_after { bytes.new ≡ put bytes.old place (end_of accepted refused) }
    ensures within { length (end_of accepted refused) ≤ line_room }
{
    put(bytes, place, &end_of(accepted, refused))
}

// Writes the only line of a tape that is too long.
pub fn write_too_long(bytes: &mut [u8], place: usize) -> Option<usize>
    ensures value { result ≡ put_answer bytes.old place too_long }
    ensures bytes_after { bytes.new ≡ put bytes.old place too_long }
    ensures within { length too_long ≤ line_room }
{
    put(bytes, place, &too_long())
}
