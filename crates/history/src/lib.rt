// The temperature history of document 02: a table of 128 rows that the controller lends, one row for each batch with its last 24 readings,
// oldest first. A record is noted, a batch is closed, the figures of a batch are asked for, and which batch a row is of. Every call goes over
// the table once, judges all of it and finds its row; at most one row is rewritten, and a refusal leaves the table as it was.
// The calls on the lent table are the last functions here; what they decide is in the functions before them, of what one pass has kept.
#![tactic(auto)]

ghost use Rattle.std.specs.Prelude.{◌≡◌, cond, ◌≤◌, ◌<◌, [], ◌∷◌, ◌++◌, length};
ghost use Rattle.refusal.specs.Number.{verdict_number};
ghost use Rattle.batch.specs.Good.{in_range};
ghost use Rattle.history.specs.Table.{reading_limit, row_with, empty_row, readings_of, is_nought, count_good, cells_good, sound_row, none_twice};
ghost use Rattle.history.specs.History.{note, close, figures, joined, figures_of, batch_or_none, batch_in};
ghost use Rattle.history.specs.Said.{note_said, close_said, told_in, figures_said, batch_told_in, batch_said};
ghost use Rattle.history.specs.Search.{begin_at, seen_at, pass, sound_search, verdict_on, place_in, home_in, to_note, row_in, to_close, to_tell, to_list};

use batch::{BatchNo, BatchRecord, in_range, judge};
use refusal::{Refusal, Verdict};

// How many rows a table has.
pub const ROWS: usize = 128;

// The readings of a batch. Batch number 0 is an empty row's, which is all zero. The count has 32 bits, so that a row has no padding.
#[repr(C)]
#[derive(Clone, Copy)]
pub struct Row {
    pub batch: BatchNo,
    pub count: u32,
    // In hundredths of a degree: `count` readings, oldest first, then zeros.
    pub readings: [i16; Row::READINGS],
}

// The figures of a batch's readings.
#[derive(Clone, Copy)]
pub struct Summary {
    pub lowest: i16,
    pub highest: i16,
    pub sum: i32,
}

// What one pass over the table keeps.
#[derive(Clone, Copy)]
pub struct Search {
    // The batch that is looked for, and its row: the empty one where it was not met, whose figures are none. (The two clauses `seen_at` and
    // `sound_search` of `seen` and `sound`, which other crates cite, have these fields.)
    wanted: BatchNo,
    found: Row,
    // Whether all rows so far are sound, how many they are, 129 for more than 128, and their batch numbers.
    fine: bool,
    rows: usize,
    batches: [u32; ROWS],
}

impl Row {
    // How many readings a row has room for.
    pub const READINGS: usize = 24;

    pub fn empty() -> Row
        ensures { result ≡ empty_row }
    {
        Row {
            batch: BatchNo(0),
            count: 0,
            readings: [0; Row::READINGS],
        }
    }

    // The readings that the row holds: not more than there are cells, whatever the count says.
    fn held(&self) -> &[i16]
        ensures { result.now ≡ readings_of self.now }
    {
        let n = (self.count as usize).min(Row::READINGS);
        &self.readings[..n]
    }
}

// ---- sound rows

fn count_good(batch: u32, count: u32) -> bool
    ensures { result ≡ count_good batch count }
{
    if batch == 0 {
        return count == 0;
    }
    1 <= count && count as usize <= Row::READINGS
}

// Whether a cell of a row is what stands in its place: a reading in range or zero.
fn cell_good(used: bool, cell: i16) -> bool
    ensures { result ≡ cond used (in_range cell) (is_nought cell) }
{
    if used { in_range(cell) } else { cell == 0 }
}

// Nothing leaves the loop early, so the compiler tests many cells at once. (`batch` has such a loop over a name. One for both would take the two
// tests as closures, and be no plainer than two of six lines.)
fn cells_good(count: u32, cells: &[i16; Row::READINGS]) -> bool
    ensures { result ≡ cells_good count cells.now }
{
    let used = count as usize;
    let mut good = true;
    for (i, cell) in cells.iter().enumerate() {
        good &= cell_good(i < used, *cell);
    }
    good
}

#[tactic(auto, unfolding(crate::specs::Table::sound_row))]
fn row_sound(row: &Row) -> bool
    ensures { result ≡ sound_row row.now }
{
    count_good(row.batch.0, row.count) && cells_good(row.count, &row.readings)
}

// ---- the batch numbers of the rows

// Where a batch number stands first.
fn place(batches: &[u32], batch: u32) -> Option<usize>
    ensures { result ≡ place_in batch batches.now }
{
    batches.iter().position(|number| *number == batch)
}

fn none_twice(batches: &[u32; ROWS]) -> bool
    ensures { result ≡ none_twice batches.now }
{
    for (i, batch) in batches.iter().enumerate() {
        if *batch != 0 && batches[i + 1..].contains(batch) {
            return false;
        }
    }
    true
}

// ---- one pass over the table

pub fn begin(wanted: BatchNo) -> Search
    ensures { result ≡ begin_at wanted }
{
    Search {
        wanted,
        found: Row::empty(),
        fine: true,
        rows: 0,
        batches: [0; ROWS],
    }
}

// A row is not judged where one before it was wrong.
pub fn seen(search: Search, row: Row, i: usize) -> Search
    ensures { result ≡ seen_at search row i }
{
    let mut next = search;
    if row.batch == search.wanted {
        next.found = row;
    }
    next.fine = search.fine && row_sound(&row);
    next.rows = i.min(ROWS) + 1;
    if i < ROWS {
        next.batches[i] = row.batch.0;
    }
    next
}

// All of a table is passed, so that nothing of it is taken on trust.
fn passed(table: &[Row], wanted: BatchNo) -> Search
    ensures { result ≡ pass wanted table.now }
{
    let mut search = begin(wanted);
    for (i, row) in table.iter().enumerate() {
        search = seen(search, *row, i);
    }
    search
}

// Whether the rows passed are a sound table.
pub fn sound(search: Search) -> bool
    ensures { result ≡ sound_search search }
{
    search.rows == ROWS && search.fine && none_twice(&search.batches)
}

// A call on a table that is not sound is refused before all else.
fn judged(search: &Search) -> Verdict
    ensures { result ≡ verdict_on search.now }
{
    if !sound(*search) {
        return Err(Refusal::UnsoundRing);
    }
    Ok(())
}

// ---- note

// The row of a batch with these readings and one more.
fn row_with(batch: BatchNo, before: &[i16], reading: i16) -> Row
    requires { length before.now < reading_limit }
    ensures { result ≡ row_with batch.0 (before.now ++ reading ∷ []) }
{
    let n = before.len();
    let mut readings = [0; Row::READINGS];
    readings[..n].copy_from_slice(before);
    readings[n] = reading;
    Row {
        batch,
        count: n as u32 + 1,
        readings,
    }
}

// The row of a batch with one reading more than that row; the oldest of 24 makes way.
fn joined(batch: BatchNo, row: &Row, reading: i16) -> Row
    ensures { result ≡ row_with batch.0 (joined (readings_of row.now) reading) }
{
    let held = row.held();
    if held.len() < Row::READINGS {
        row_with(batch, held, reading)
    } else {
        row_with(batch, &held[1..], reading)
    }
}

// Where a batch's next reading goes: to its row, else to the lowest empty one.
fn home(batches: &[u32; ROWS], batch: u32) -> Option<usize>
    ensures { result ≡ home_in batch batches.now }
{
    place(batches, batch).or_else(|| place(batches, 0))
}

// The row that a record's reading goes to, and what it becomes.
fn to_note(search: Search, record: BatchRecord) -> Result<(usize, Row), Refusal>
    ensures { result ≡ to_note search «record» }
{
    judged(&search)?;
    judge(record)?;
    let at = home(&search.batches, record.batch.0).ok_or(Refusal::NoEmptyRow)?;
    let row = joined(record.batch, &search.found, record.temperature);
    Ok((at, row))
}

// ---- close

// The row that a close empties.
fn to_close(search: Search, batch: BatchNo) -> Result<Option<usize>, Refusal>
    ensures { result ≡ to_close search batch }
{
    judged(&search)?;
    if batch.0 == 0 {
        return Ok(None);
    }
    Ok(place(&search.batches, batch.0))
}

// ---- figures

// The figures of some readings; none of none.
fn summed(readings: &[i16]) -> Option<Summary>
    requires { length readings.now ≤ reading_limit }
    ensures { result ≡ figures_of readings.now }
{
    let (first, rest) = readings.split_first()?;
    let mut lowest = *first;
    let mut highest = *first;
    let mut sum = *first as i32;
    for reading in rest {
        lowest = lowest.min(*reading);
        highest = (*reading).max(highest);
        sum += *reading as i32;
    }
    Some(Summary {
        lowest,
        highest,
        sum,
    })
}

fn to_tell(search: Search) -> Result<Option<Summary>, Refusal>
    ensures { result ≡ to_tell search }
{
    judged(&search)?;
    Ok(summed(search.found.held()))
}

// ---- the batch of a row

fn batch_or_none(batch: u32) -> Option<BatchNo>
    ensures { result ≡ batch_or_none batch }
{
    if batch == 0 {
        None
    } else {
        Some(BatchNo(batch))
    }
}

fn to_list(search: Search, row: usize) -> Result<Option<BatchNo>, Refusal>
    ensures { result ≡ to_list search row }
{
    judged(&search)?;
    if row < ROWS {
        return Ok(batch_or_none(search.batches[row]));
    }
    Ok(None)
}

// ---- the calls on the lent table

// A record is noted: its temperature joins the readings of its batch.
pub fn note(table: &mut [Row], record: BatchRecord) -> Verdict
    ensures done { (table.new ≡ (note «record» table.old).table) × (result ≡ (note «record» table.old).verdict) }
    ensures said { verdict_number result ≡ note_said «record» table.old }
{
    let search = passed(table, record.batch);
    let (at, row) = to_note(search, record)?;
    table[at] = row;
    Ok(())
}

// A batch is closed: its whole row becomes zero. One that has no row changes nothing.
pub fn close(table: &mut [Row], batch: BatchNo) -> Verdict
    ensures done { (table.new ≡ (close batch.0 table.old).table) × (result ≡ (close batch.0 table.old).verdict) }
    ensures said { verdict_number result ≡ close_said table.old }
{
    let search = passed(table, batch);
    if let Some(at) = to_close(search, batch)? {
        table[at] = Row::empty();
    }
    Ok(())
}

// The lowest, the highest and the sum of a batch's readings, or none where it has no row.
pub fn figures_of(table: &[Row], batch: BatchNo) -> Result<Option<Summary>, Refusal>
    ensures value { result ≡ figures batch.0 table.now }
    ensures said { told_in result ≡ figures_said batch.0 table.now }
{
    to_tell(passed(table, batch))
}

// The batch of a row, or none where the row is empty or the table has no such row.
pub fn batch_in(table: &[Row], row: usize) -> Result<Option<BatchNo>, Refusal>
    ensures value { result ≡ batch_in row table.now }
    ensures said { batch_told_in result ≡ batch_said row table.now }
{
    to_list(passed(table, BatchNo(0)), row)
}
