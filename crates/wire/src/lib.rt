// A batch record as bytes, 40 of them: the form in which a ring's memory holds one, and a tape the fields of a send, whose temperature is
// in the command's unit. The reader answers what the bytes stand for; the writer is lent the part of the buffer that begins with the
// record, and lends its fields their parts. What was written is read and what was read is written (specs/Record.antt).
#![tactic(auto)]

pub mod fields;

ghost use Rattle.std.specs.Prelude.{◌≡◌, ◌+◌, ◌≤◌, length, drop};
ghost use Rattle.batch.specs.Good.{name_limit, good_record};
ghost use Rattle.wire.specs.Bytes.{part, overwritten};
ghost use Rattle.wire.specs.Record.{record_length, record_bytes, record_in, field_bytes, fields_in};

use batch;
use batch::sending::Fields;
use batch::{BatchNo, BatchRecord, sending};

// How many bytes a record takes.
pub const RECORD_LENGTH: usize = 40;

// The bytes of a name, from a place on.
fn name_at(bytes: &[u8], at: usize) -> [u8; 32]
    requires { at + name_limit ≤ length bytes.now }
    ensures { result ≡ part at name_limit bytes.now }
{
    let mut name = [0; 32];
    name.copy_from_slice(&bytes[at..at + 32]);
    name
}

// The fields of a send that the bytes begin with.
#[tactic(auto, using(crate::proofs::Twos::passed_on), unfolding(crate::specs::Record::record_in))]
pub fn fields_in(bytes: &[u8]) -> Fields
    requires { record_length ≤ length bytes.now }
    ensures { result ≡ fields_in bytes.now }
{
    let batch = BatchNo(fields::u32_at(bytes, 0));
    let vessel = fields::u8_at(bytes, 4);
    let temperature = fields::i16_at(bytes, 5);
    let name_length = fields::u8_at(bytes, 7);
    let name = name_at(bytes, 8);
    Fields {
        batch,
        vessel,
        temperature,
        name_length,
        name,
    }
}

// The record that the bytes begin with: its temperature is in hundredths.
pub fn record_in(bytes: &[u8]) -> BatchRecord
    requires { record_length ≤ length bytes.now }
    ensures { result ≡ record_in bytes.now }
{
    let fields = fields_in(bytes);
    let temperature = fields.temperature;
    sending::record_with(fields, temperature)
}

// The record at a place.
pub fn record_at(bytes: &[u8], place: usize) -> BatchRecord
    requires { place + record_length ≤ length bytes.now }
    ensures { result ≡ record_in (drop place bytes.now) }
{
    record_in(&bytes[place..])
}

// Whether the record that the bytes begin with is good.
pub fn record_good(bytes: &[u8]) -> bool
    requires { record_length ≤ length bytes.now }
    ensures { result ≡ good_record (record_in bytes.now) }
{
    batch::is_good(record_in(bytes))
}

// Puts the bytes of a name at the front of the bytes.
fn put_name(bytes: &mut [u8], name: [u8; 32])
    requires { name_limit ≤ length bytes.old }
    ensures { bytes.new ≡ overwritten bytes.old 0 name }
{
    bytes[..32].copy_from_slice(&name);
}

// Puts the fields of a send at the front of the bytes.
pub fn put_fields(bytes: &mut [u8], sent: Fields)
    requires { record_length ≤ length bytes.old }
    ensures { bytes.new ≡ overwritten bytes.old 0 (field_bytes sent) }
{
    let number = sent.batch.0;
    let temperature = sent.temperature;
    let name = sent.name;
    fields::put_u32(bytes, number);
    fields::put_u8(&mut bytes[4..], sent.vessel);
    fields::put_i16(&mut bytes[5..], temperature);
    fields::put_u8(&mut bytes[7..], sent.name_length);
    put_name(&mut bytes[8..], name);
}

// Puts a record at the front of the bytes.
pub fn put_record(bytes: &mut [u8], record: BatchRecord)
    requires { record_length ≤ length bytes.old }
    ensures { bytes.new ≡ overwritten bytes.old 0 (record_bytes «record») }
{
    put_fields(bytes, Fields::from(record));
}

// Puts a record at a place, and changes nothing before or past it.
#[tactic(auto, using(crate::proofs::Buffer::lent))]
pub fn put_record_at(bytes: &mut [u8], place: usize, record: BatchRecord)
    requires { place + record_length ≤ length bytes.old }
    ensures { bytes.new ≡ overwritten bytes.old place (record_bytes «record») }
{
    put_record(&mut bytes[place..], record);
}
