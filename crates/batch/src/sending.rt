// What a send command gives, and the record that is made of it. The command says in which unit its temperature is; a record's is in
// hundredths, so it is made here, in one function, and nowhere else.
ghost use Rattle.std.specs.Prelude.{◌≡◌};
ghost use Rattle.batch.specs.Sending.{in_tenths, made, record_with, fields_of, no_fields, sent_from};

use crate::{BatchNo, BatchRecord, between, in_range, judge_sent};
use refusal::Refusal;

// The unit of a command's temperature.
#[derive(Clone, Copy)]
pub enum Scale {
    Tenths,
    Hundredths,
}

// A send's fields as its command has them: a record's, but for the temperature, which is in the command's unit. They lie as a record does. (Two
// types and not one with a unit: a temperature in tenths is then never taken for a record's, and C has both as they are.)
#[repr(C)]
#[derive(Clone, Copy)]
pub struct Fields {
    pub batch: BatchNo,
    pub vessel: u8,
    pub name_length: u8,
    pub temperature: i16,
    pub name: [u8; 32],
}

impl Fields {
    // The limits of a temperature in tenths, of document 01.
    pub const COLDEST_TENTHS: i16 = -400;

    pub const HOTTEST_TENTHS: i16 = 1200;

    // What stands beside a command that has no fields. No `Option`: the theorems of tape/specs/RoundTrip speak of the fields of every command.
    #[tactic(auto, unfolding(crate::specs::Sending::no_fields))]
    pub fn none() -> Fields
        ensures { result ≡ no_fields }
    {
        Fields::from(BatchRecord::none())
    }
}

// Whether a temperature in tenths is one that a command may give.
pub fn in_tenths(value: i16) -> bool
    ensures { result ≡ in_tenths value }
{
    between(Fields::COLDEST_TENTHS, Fields::HOTTEST_TENTHS, value)
}

// A record's temperature from a command's, tested in its own unit: ten times as many tenths, from 3,277 on, do not fit 16 bits.
#[tactic(auto, unfolding(crate::specs::Sending::made))]
pub fn hundredths(scale: Scale, value: i16) -> Result<i16, Refusal>
    ensures { result ≡ made scale value }
{
    match scale {
        Scale::Tenths if in_tenths(value) => Ok(value * 10),
        Scale::Hundredths if in_range(value) => Ok(value),
        _ => Err(Refusal::TemperatureOutOfRange),
    }
}

// The fields that give a record in hundredths.
impl From<BatchRecord> for Fields {
    ghost from_gives = { λ x fields. fields ≡ fields_of x };

    fn from(value: BatchRecord) -> Fields {
        let name = value.name;
        Fields {
            batch: value.batch,
            vessel: value.vessel,
            name_length: value.name_length,
            temperature: value.temperature,
            name,
        }
    }
}

// The record of a command's fields with this temperature, in hundredths. (No `From`: it takes the temperature besides.)
pub fn record_with(fields: Fields, temperature: i16) -> BatchRecord
    ensures { result ≡ record_with fields temperature }
{
    let name = fields.name;
    BatchRecord {
        batch: fields.batch,
        vessel: fields.vessel,
        name_length: fields.name_length,
        temperature,
        name,
    }
}

// What send makes of a command's fields: 11, then 12 for the temperature in its own unit, then the rest of what send asks.
pub fn make(scale: Scale, fields: Fields) -> Result<BatchRecord, Refusal>
    ensures { result ≡ sent_from scale fields }
{
    if fields.batch.0 == 0 {
        return Err(Refusal::BatchNumberZero);
    }
    let temperature = hundredths(scale, fields.temperature)?;
    let record = record_with(fields, temperature);
    judge_sent(record)?;
    Ok(record)
}
