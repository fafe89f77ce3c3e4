// A history table that is held in tenths of a degree, turned into hundredths where it lies: each reading ten times as many, so each figure
// too, batches and counts the same. 25 where the table is not sound in tenths, and the table is then as it was. A table is not asked in
// which unit it is held: one in hundredths that would be sound in tenths is turned as any other.
ghost use Rattle.std.specs.Prelude.{◌≡◌};
ghost use Rattle.batch.specs.Good.{every};
ghost use Rattle.batch.specs.Sending.{in_tenths};
ghost use Rattle.convert.specs.TurnedTable.{row_in_tenths, turn_table};
ghost use Rattle.convert.specs.TablePass.{turned_cell, turned_row, turned_pass, judged};

use batch::BatchNo;
use batch::sending::{Scale, hundredths, in_tenths};
use history::{Row, Search, sound};
use refusal::{Refusal, Verdict};

// A cell in hundredths. One that is no temperature in tenths stays as it is: the table is refused then.
pub fn turned_cell(cell: i16) -> i16
    ensures { result ≡ turned_cell cell }
{
    hundredths(Scale::Tenths, cell).unwrap_or(cell)
}

fn turned_row(row: &Row) -> Row
    ensures { result ≡ turned_row row.now }
{
    let mut readings = row.readings;
    for cell in readings.iter_mut() {
        *cell = turned_cell(*cell);
    }
    Row { readings, ..*row }
}

// Whether every cell is a temperature in tenths. Nothing leaves the loop early, so the compiler tests many cells at once.
fn all_in_tenths(cells: &[i16]) -> bool
    ensures { result ≡ every in_tenths cells.now }
{
    let mut all = true;
    for cell in cells {
        all &= in_tenths(*cell);
    }
    all
}

// Whether every cell of every row is one. All rows are read, whatever stands in any of them: include/vessel_ring.h says so of each call.
fn table_in_tenths(table: &[Row]) -> bool
    ensures { result ≡ every row_in_tenths table.now }
{
    let mut all = true;
    for row in table {
        all &= all_in_tenths(&row.readings);
    }
    all
}

// What `history` keeps of a pass over the table, of its rows as they are turned.
fn turned_pass(table: &[Row]) -> Search
    ensures { result ≡ turned_pass table.now }
{
    let mut turned = history::begin(BatchNo(0));
    for (i, row) in table.iter().enumerate() {
        turned = history::seen(turned, turned_row(row), i);
    }
    turned
}

// Whether the table is sound in tenths. It is judged before a row of it is turned.
fn judged(table: &[Row]) -> Verdict
    ensures { result ≡ judged table.now }
{
    if !table_in_tenths(table) || !sound(turned_pass(table)) {
        return Err(Refusal::UnsoundRing);
    }
    Ok(())
}

pub fn turn_table(table: &mut [Row]) -> Verdict
    ensures { (table.new ≡ (turn_table table.old).table) × (result ≡ (turn_table table.old).verdict) }
{
    judged(table)?;
    for row in table.iter_mut() {
        *row = turned_row(row);
    }
    Ok(())
}
