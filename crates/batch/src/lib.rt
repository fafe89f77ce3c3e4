// The batch record that a channel carries, what makes one good, and when two are of the same batch; `sending` makes one of what a command
// gives.
// Each function answers what its definition in specs/ says, of every value: a record is good or is refused
// with the first refusal that applies. What send asks besides is a verdict of its own: a record that it refuses with 30 is good. The limits
// of document 01 are constants of the record; a name has 32 cells.
#![tactic(auto)]

pub mod sending;

ghost use Rattle.std.specs.Prelude.{◌≡◌, cond, ◌≤◌};
ghost use Rattle.refusal.specs.Number.{verdict_number};
ghost use Rattle.batch.specs.Good.{every, between, in_range, is_zero, is_character, name_limit, name_cells_good, verdict_of, good_record, blank_at_end, send_verdict};
ghost use Rattle.batch.specs.Blank.{no_record};
ghost use Rattle.batch.specs.Same.{same_batch};

use refusal::{Refusal, Verdict};

// A batch number, a type of its own so that it is never taken for a node or a channel number. A good record's is not 0.
#[repr(C)]
#[derive(Clone, Copy, PartialEq, Eq)]
pub struct BatchNo(pub u32);

// The fields stand in an order that leaves no padding, so that a record is lent and returned to C as it is.
#[repr(C)]
#[derive(Clone, Copy)]
pub struct BatchRecord {
    pub batch: BatchNo,
    pub vessel: u8,
    // How many cells of `name` are the name; the rest are the fill, zeros.
    pub name_length: u8,
    // Hundredths of a degree Celsius.
    pub temperature: i16,
    pub name: [u8; 32],
}

impl BatchRecord {
    // The limits, of documents 01 and 02: temperatures in hundredths of a degree, a name's length, and the bytes of a name.
    pub const COLDEST: i16 = -4000;

    pub const HOTTEST: i16 = 12000;

    pub const NAME_LIMIT: u8 = 32;

    pub const FIRST_CHARACTER: u8 = 0x20;

    pub const LAST_CHARACTER: u8 = 0x7E;

    // What a name in a send has at neither end.
    pub const BLANK: u8 = 0x20;

    // What a cell that holds no record has: every field zero. No `Option`: the ring's memory, which C holds, has these bytes there.
    #[tactic(auto, unfolding(crate::specs::Blank::no_record))]
    pub fn none() -> BatchRecord
        ensures { result ≡ no_record }
    {
        BatchRecord {
            batch: BatchNo(0),
            vessel: 0,
            temperature: 0,
            name_length: 0,
            name: [0; 32],
        }
    }
}

// The numbers from 0 to 63 as bytes: a node or a channel by number. A loop that compares its places with them tests many cells at once; a
// range of bytes in their place took nearly three times as long in the test for a sound ring.
pub const PLACES: [u8; 64] = [
    0, 1, 2, 3, 4, 5, 6, 7, 8, 9, 10, 11, 12, 13, 14, 15, 16, 17, 18, 19, 20, 21, 22, 23, 24, 25,
    26, 27, 28, 29, 30, 31, 32, 33, 34, 35, 36, 37, 38, 39, 40, 41, 42, 43, 44, 45, 46, 47, 48, 49,
    50, 51, 52, 53, 54, 55, 56, 57, 58, 59, 60, 61, 62, 63,
];

// Whether all the cells are zero. Nothing leaves the loop early, so the compiler tests many cells at once.
pub fn all_zero(cells: &[u8]) -> bool
    ensures { result ≡ every is_zero cells.now }
{
    let mut zero = true;
    for cell in cells {
        zero &= *cell == 0;
    }
    zero
}

// Whether a number is neither below the one nor above the other.
fn between(low: i16, high: i16, value: i16) -> bool
    ensures { result ≡ between low high value }
{
    (low..=high).contains(&value)
}

// Whether a temperature is one that a record may have.
pub fn in_range(temperature: i16) -> bool
    ensures { result ≡ in_range temperature }
{
    between(BatchRecord::COLDEST, BatchRecord::HOTTEST, temperature)
}

// Whether a cell of a name is what stands in its place: a character or the fill.
fn cell_good(character: bool, cell: u8) -> bool
    ensures { result ≡ cond character (is_character cell) (is_zero cell) }
{
    if character {
        (BatchRecord::FIRST_CHARACTER..=BatchRecord::LAST_CHARACTER).contains(&cell)
    } else {
        cell == 0
    }
}

// Whether the first `length` cells are characters and the rest zeros. The wrong cells are counted, many at once: nothing leaves the loop
// early.
fn name_cells_good(length: u8, name: &[u8; 32]) -> bool
    ensures { result ≡ name_cells_good length name.now }
{
    let mut wrong = 0;
    for (cell, place) in name.iter().zip(0u8..) {
        wrong += u8::from(!cell_good(place < length, *cell));
    }
    wrong == 0
}

// The first refusal that applies to a record, in the order of document 01, and document 01's number for it. The vessel may be any.
#[tactic(auto, unfolding(crate::specs::Good::verdict_of, crate::specs::Good::batch_good, crate::specs::Good::temp_good, crate::specs::Good::name_length_good, crate::specs::Good::name_good, crate::specs::Good::widths_good))]
pub fn judge(record: BatchRecord) -> Verdict
    ensures value { result ≡ verdict_of «record» }
    ensures result_value { verdict_number result ≡ verdict_number (verdict_of «record») }
{
    if record.batch.0 == 0 {
        return Err(Refusal::BatchNumberZero);
    }
    if !in_range(record.temperature) {
        return Err(Refusal::TemperatureOutOfRange);
    }
    if BatchRecord::NAME_LIMIT < record.name_length {
        return Err(Refusal::NameTooLong);
    }
    if !name_cells_good(record.name_length, &record.name) {
        return Err(Refusal::BadName);
    }
    Ok(())
}

// Whether a name of so many characters begins or ends with a blank. An empty name does neither.
#[tactic(auto, unfolding(crate::specs::Good::blank_at_end))]
fn blank_at_end(length: u8, name: &[u8; 32]) -> bool
    requires { length ≤ name_limit }
    ensures { result ≡ blank_at_end length name.now }
{
    let characters = &name[..length as usize];
    characters.first() == Some(&BatchRecord::BLANK)
        || characters.last() == Some(&BatchRecord::BLANK)
}

// The first refusal that applies to a record in a send: what is asked of every record, and then of the ends of its name.
#[tactic(auto, using(crate::proofs::Good::name_within), unfolding(crate::specs::Good::send_verdict, crate::specs::Good::blank_ends))]
pub fn judge_sent(record: BatchRecord) -> Verdict
    ensures value { result ≡ send_verdict «record» }
    ensures result_value { verdict_number result ≡ verdict_number (send_verdict «record») }
{
    judge(record)?;
    if blank_at_end(record.name_length, &record.name) {
        return Err(Refusal::BlankEnd);
    }
    Ok(())
}

// Whether no refusal applies to a record.
#[tactic(auto, using(crate::proofs::Good::good_passes))]
pub fn is_good(record: BatchRecord) -> bool
    ensures { result ≡ good_record «record» }
{
    judge(record).is_ok()
}

// Whether two records are of one batch: by their batch numbers alone, whatever their names.
#[tactic(auto, unfolding(crate::specs::Same::same_batch))]
pub fn same_batch(a: BatchRecord, b: BatchRecord) -> bool
    ensures { result ≡ same_batch a b }
{
    a.batch == b.batch
}
