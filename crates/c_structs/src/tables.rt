// What the calls on a history table take and answer, between C's form and the history's.
ghost use Rattle.std.specs.Prelude.{◌≡◌};
ghost use Rattle.history.specs.Said.{told_in};
ghost use Rattle.c_structs.specs.Tables.{batch_no, no_figures, figures_in, figures_struct, batch_in};

use crate::{BatchFigures, RowBatch};
use batch::BatchNo;
use history::Summary;
use refusal::Refusal;

pub fn batch_no(number: u32) -> BatchNo
    ensures { result ≡ batch_no number }
{
    BatchNo(number)
}

fn no_figures(refusal: u8) -> BatchFigures
    ensures { result ≡ no_figures refusal }
{
    BatchFigures {
        sum: 0,
        lowest: 0,
        highest: 0,
        refusal,
        held: 0,
    }
}

pub fn figures_in(figures: Result<Option<Summary>, Refusal>) -> BatchFigures
    ensures value { result ≡ figures_in figures }
    ensures said { result ≡ figures_struct (told_in figures) }
{
    match figures {
        Ok(Some(summary)) => BatchFigures {
            sum: summary.sum,
            lowest: summary.lowest,
            highest: summary.highest,
            refusal: 0,
            held: 1,
        },
        Ok(None) => no_figures(0),
        Err(refusal) => no_figures(refusal.number()),
    }
}

pub fn batch_in(row: Result<Option<BatchNo>, Refusal>) -> RowBatch
    ensures { result ≡ batch_in row }
{
    match row {
        Ok(Some(batch)) => RowBatch {
            batch: batch.0,
            refusal: 0,
        },
        Ok(None) => RowBatch {
            batch: 0,
            refusal: 0,
        },
        Err(refusal) => RowBatch {
            batch: 0,
            refusal: refusal.number(),
        },
    }
}
