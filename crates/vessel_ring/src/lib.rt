// The ring for firmware, as C functions: include/vessel_ring.h has their types for C and says how to use them, and `rt lib` in this
// crate's folder writes the library. The ring calls go on a ring that the caller keeps and lends by pointer, those of the history on a
// table likewise; beside them stand the reader and the writer of commands, the test for a sound ring, the record in a ring's bytes, the
// listing of a tape and the version of all this. Every function takes every value: no byte of a ring, a table, a record, a command or a tape
// is trusted, a refusal answers its number and leaves everything as it was.
//
// An exported call makes a command or a question of its numbers, hands the ring on to `site`, and tells the reply in numbers: the C interface
// needs a function for each call, a number for a refusal, and 1 or 0 for a test. One more takes its maker in `c_structs` and the function
// here; where its answer has a value that no other has, a struct in `c_structs` and what tells it; its prototype in the header, a version and
// its lines in docs/C-CHANGES.md, and its arm in tests/calls.
// One more command of the tape takes nothing here: `commands` of `c_structs` reads the tape's own table.
#![tactic(auto)]

ghost use Rattle.std.specs.Prelude.{◌≡◌};
ghost use Rattle.refusal.specs.Number.{verdict_number};
ghost use Rattle.batch.specs.declared.sending.Scale.TheVariants.{Tenths, Hundredths};
ghost use Rattle.batch.specs.Sending.{record_from};
ghost use Rattle.convert.specs.TurnedRing.{turn_ring};
ghost use Rattle.convert.specs.TurnedTable.{turn_table};
ghost use Rattle.history.specs.History as History;
ghost use Rattle.history.specs.Said.{note_said, close_said};
ghost use Rattle.network.specs.Answers.{number_in, reply_of};
ghost use Rattle.network.specs.Counting.{one};
ghost use Rattle.network.specs.Dispatcher.{dispatch_step};
ghost use Rattle.network.specs.Layout.{fresh_ring, sound_ring, ring_after, answer_to};
ghost use Rattle.network.specs.Network.{node_no, channel_no};
ghost use Rattle.network.specs.Runs;
ghost use Rattle.network.specs.Runs.{after};
ghost use Rattle.tape.specs.Tape.{read_at};
ghost use Rattle.c_structs.specs.Answers.{number_to, delivery_to, rounds_to, hops_left_in, waiting_in};
ghost use Rattle.c_structs.specs.Commands.{reading_in, writing_to, after_writing};
ghost use Rattle.vessel_ring.specs.Listed.{Listed};
ghost use Rattle.vessel_ring.specs.Version.{version};
ghost use Rattle.vessel_ring.specs.Held.{record_held};
ghost use Rattle.c_structs.specs.Tables.{figures_in, figures_to, batch_to};

use batch::BatchRecord;
use batch::sending::Fields;
use c_structs::{
    BatchFigures, Command, Delivery, HopsLeft, Reading, Rounds, RowBatch, Waiting, Writing,
    commands, tables,
};
use history::Row;
use network::Ring;
use runner::Session;
use wire;

// Raised with each change of the interface; include/vessel_ring.h has the rule, docs/C-CHANGES.md what each brought.
const VERSION: u32 = 301;

// The version of the interface: the header's, which a firmware compares with it.
#[unsafe(no_mangle)]
pub extern "C" fn vessel_version() -> u32
    ensures { result ≡ version }
{
    VERSION
}

#[unsafe(no_mangle)]
pub extern "C" fn vessel_ring_fresh() -> Ring
    ensures { result ≡ fresh_ring }
{
    Ring::fresh()
}

#[unsafe(no_mangle)]
pub extern "C" fn vessel_ring_add_node(ring: &mut Ring, slots: u8) -> u8
    ensures { (ring.new ≡ ring_after (Runs.add_node slots) ring.old)
        × (result ≡ number_to (Runs.add_node slots) ring.old) }
{
    let command = command::add_node(slots);
    let reply = site::perform(ring, command);
    c_structs::refusal_in(reply)
}

#[unsafe(no_mangle)]
pub extern "C" fn vessel_ring_add_channel(ring: &mut Ring, sender: u8, receiver: u8) -> u8
    ensures { (ring.new ≡ ring_after (Runs.add_channel (node_no sender) (node_no receiver)) ring.old)
        × (result ≡ number_to (Runs.add_channel (node_no sender) (node_no receiver)) ring.old) }
{
    let command = c_structs::add_channel(sender, receiver);
    let reply = site::perform(ring, command);
    c_structs::refusal_in(reply)
}

#[unsafe(no_mangle)]
pub extern "C" fn vessel_ring_start(ring: &mut Ring) -> u8
    ensures { (ring.new ≡ ring_after Runs.start ring.old)
        × (result ≡ number_to Runs.start ring.old) }
{
    let command = command::start();
    let reply = site::perform(ring, command);
    c_structs::refusal_in(reply)
}

#[unsafe(no_mangle)]
pub extern "C" fn vessel_ring_receive(ring: &mut Ring, channel: u8) -> u8
    ensures { (ring.new ≡ ring_after (Runs.receive (channel_no channel)) ring.old)
        × (result ≡ number_to (Runs.receive (channel_no channel)) ring.old) }
{
    let command = c_structs::receive(channel);
    let reply = site::perform(ring, command);
    c_structs::refusal_in(reply)
}

// The temperature is in hundredths.
#[unsafe(no_mangle)]
pub extern "C" fn vessel_ring_send(ring: &mut Ring, channel: u8, fields: Fields) -> u8
    ensures { (ring.new ≡ ring_after (Runs.send (channel_no channel) (record_from Hundredths fields)) ring.old)
        × (result ≡ number_to (Runs.send (channel_no channel) (record_from Hundredths fields)) ring.old) }
{
    let command = c_structs::send(channel, fields);
    let reply = site::perform(ring, command);
    c_structs::refusal_in(reply)
}

// The same with the temperature in tenths.
#[unsafe(no_mangle)]
pub extern "C" fn vessel_ring_send_tenths(ring: &mut Ring, channel: u8, fields: Fields) -> u8
    ensures { (ring.new ≡ ring_after (Runs.send (channel_no channel) (record_from Tenths fields)) ring.old)
        × (result ≡ number_to (Runs.send (channel_no channel) (record_from Tenths fields)) ring.old) }
{
    let command = c_structs::send_tenths(channel, fields);
    let reply = site::perform(ring, command);
    c_structs::refusal_in(reply)
}

#[unsafe(no_mangle)]
pub extern "C" fn vessel_ring_enter(ring: &mut Ring, node: u8) -> u8
    ensures { (ring.new ≡ ring_after (Runs.enter (node_no node)) ring.old)
        × (result ≡ number_to (Runs.enter (node_no node)) ring.old) }
{
    let command = c_structs::enter(node);
    let reply = site::perform(ring, command);
    c_structs::refusal_in(reply)
}

#[unsafe(no_mangle)]
pub extern "C" fn vessel_ring_move(ring: &mut Ring, node: u8) -> Delivery
    ensures { (ring.new ≡ ring_after (Runs.move (node_no node)) ring.old)
        × (result ≡ delivery_to (Runs.move (node_no node)) ring.old) }
{
    let command = c_structs::move_on(node);
    let reply = site::perform(ring, command);
    c_structs::delivery_in(reply)
}

#[unsafe(no_mangle)]
pub extern "C" fn vessel_ring_withdraw(ring: &mut Ring, channel: u8) -> u8
    ensures { (ring.new ≡ ring_after (Runs.withdraw (channel_no channel)) ring.old)
        × (result ≡ number_to (Runs.withdraw (channel_no channel)) ring.old) }
{
    let command = c_structs::withdraw(channel);
    let reply = site::perform(ring, command);
    c_structs::refusal_in(reply)
}

#[unsafe(no_mangle)]
pub extern "C" fn vessel_ring_dispatch(ring: &mut Ring, rounds: u16) -> Rounds
    ensures { (ring.new ≡ (dispatch_step rounds ring.old).ring)
        × (result ≡ rounds_to rounds ring.old) }
{
    let dispatched = site::dispatch(ring, rounds);
    c_structs::rounds_in(dispatched)
}

#[unsafe(no_mangle)]
pub extern "C" fn vessel_ring_hops_left(ring: &Ring, channel: u8) -> HopsLeft
    ensures { result ≡ hops_left_in (answer_to (Runs.hops_left (channel_no channel)) ring.now) }
{
    let question = c_structs::hops_left(channel);
    let answer = site::ask(ring, question);
    c_structs::hops_in(answer)
}

#[unsafe(no_mangle)]
pub extern "C" fn vessel_ring_waiting_set(ring: &Ring, node: u8) -> Waiting
    ensures { result ≡ waiting_in (answer_to (Runs.waiting_set (node_no node)) ring.now) }
{
    let question = c_structs::waiting_set(node);
    let answer = site::ask(ring, question);
    c_structs::waiting_in(answer)
}

// 1 where the ring is sound, else 0.
#[unsafe(no_mangle)]
pub extern "C" fn vessel_ring_is_sound(ring: &Ring) -> u8
    ensures { result ≡ one (sound_ring ring.now) }
{
    let sound = site::is_sound(ring);
    c_structs::flag(sound)
}

// Turns a ring that is held in tenths into hundredths. No ring call.
#[unsafe(no_mangle)]
pub extern "C" fn vessel_ring_to_hundredths(ring: &mut Ring) -> u8
    ensures { (ring.new ≡ after ring.old (turn_ring ring.old))
        × (result ≡ number_in (reply_of (turn_ring ring.old))) }
{
    let reply = convert::rings::turn_ring(ring);
    c_structs::refusal_in(reply)
}

// The record that lies in 40 bytes, as those of a ring's offers do; of fewer bytes, the blank one.
#[tactic(auto, unfolding(crate::specs::Held::record_held))]
#[unsafe(no_mangle)]
pub extern "C" fn vessel_record_in(bytes: &[u8]) -> BatchRecord
    ensures { result ≡ record_held bytes.now }
{
    if bytes.len() < wire::RECORD_LENGTH {
        return BatchRecord::none();
    }
    wire::record_in(bytes)
}

#[unsafe(no_mangle)]
pub extern "C" fn vessel_history_note(table: &mut [Row], record: BatchRecord) -> u8
    ensures done { (table.new ≡ (History.note «record» table.old).table)
        × (result ≡ verdict_number (History.note «record» table.old).verdict) }
    ensures said { result ≡ note_said «record» table.old }
{
    refusal::number_in(&history::note(table, record))
}

#[unsafe(no_mangle)]
pub extern "C" fn vessel_history_close(table: &mut [Row], batch: u32) -> u8
    ensures done { (table.new ≡ (History.close batch table.old).table)
        × (result ≡ verdict_number (History.close batch table.old).verdict) }
    ensures said { result ≡ close_said table.old }
{
    let batch = tables::batch_no(batch);
    refusal::number_in(&history::close(table, batch))
}

#[unsafe(no_mangle)]
pub extern "C" fn vessel_history_figures(table: &[Row], batch: u32) -> BatchFigures
    ensures value { result ≡ figures_in (History.figures batch table.now) }
    ensures said { result ≡ figures_to batch table.now }
{
    let batch = tables::batch_no(batch);
    let figures = history::figures_of(table, batch);
    tables::figures_in(figures)
}

// The batch of a row, 0 where the row is empty or the table has no such row.
#[unsafe(no_mangle)]
pub extern "C" fn vessel_history_batch(table: &[Row], row: usize) -> RowBatch
    ensures { result ≡ batch_to row table.now }
{
    let batch = history::batch_in(table, row);
    tables::batch_in(batch)
}

// A table that is held in tenths of a degree into hundredths.
#[unsafe(no_mangle)]
pub extern "C" fn vessel_history_to_hundredths(table: &mut [Row]) -> u8
    ensures { (table.new ≡ (turn_table table.old).table)
        × (result ≡ verdict_number (turn_table table.old).verdict) }
{
    refusal::number_in(&convert::tables::turn_table(table))
}

#[unsafe(no_mangle)]
pub extern "C" fn vessel_tape_read(bytes: &[u8], place: usize) -> Reading
    ensures { result ≡ reading_in (read_at bytes.now place) }
{
    let reading = tape::read(bytes, place);
    commands::reading_of(reading)
}

#[unsafe(no_mangle)]
pub extern "C" fn vessel_tape_write(bytes: &mut [u8], place: usize, command: Command) -> Writing
    ensures { (result ≡ writing_to bytes.old place command)
        × (bytes.new ≡ after_writing bytes.old place command) }
{
    commands::write(bytes, place, command)
}

// Runs a tape from a fresh ring and writes its listing from the beginning of `out`, as many whole lines as have room. Answers how many
// bytes were written: all of the listing where `out` has room for one line (`report::LINE_ROOM`) more than that.
#[unsafe(no_mangle)]
pub extern "C" fn vessel_ring_list(tape: &[u8], out: &mut [u8]) -> usize
    ensures { Listed tape.now out.old out.new result }
{
    let mut session = Session::begin();
    runner::run(tape, &mut session, out)
}
