// The tape program's input and output: takes a tape from a reader and prints its listing to a writer. What is printed is all `runner`'s: it
// runs the tape into a buffer until the run is over, and what each run left there is written out.
ghost use Rattle.std.specs.Prelude.{◌≤◌, length, IfSome, IfOk, OnOk};
ghost use Rattle.std.specs.Io.KnownBytes.{Appends};
ghost use Rattle.runner.specs.Listing.{listing_of};
ghost use Rattle.run_tape.specs.Input.{IsFront, NothingPrinted};

use runner::Session;
use std::io::{Read, Write};
use std::{fmt, io};

// What failed.
#[derive(Clone, Copy)]
pub enum Failure {
    Reading(io::Error),
    Writing(io::Error),
}

impl fmt::Display for Failure {
    fn fmt<W: fmt::Write>(&self, f: &mut fmt::Formatter<W>) -> fmt::Result {
        match self {
            Failure::Reading(error) => write!(f, "standard input: {error}"),
            Failure::Writing(error) => write!(f, "standard output: {error}"),
        }
    }
}

// Reads until the input ends, in as many pieces as it comes, or the buffer is full. Answers how long the tape in the buffer is.
pub fn read_tape<R: Read>(input: &mut R, tape: &mut [u8]) -> io::Result<usize>
    ensures within { IfOk result (λ len. len ≤ length tape.new) }
    ensures front { IfOk result (λ len. IsFront (R.remaining input.old) len tape.new) }
{
    let mut len = 0;
    while len < tape.len() {
        let count = input.read(&mut tape[len..])?;
        if count == 0 {
            break;
        }
        len += count;
    }
    Ok(len)
}

// Prints the listing of a tape.
pub fn print_listing<W: Write>(tape: &[u8], output: &mut W) -> io::Result<()>
    ensures { OnOk result (Appends (W.contents output.old) (W.contents output.new) (listing_of tape.now)) }
{
    let mut out = [0u8; 65536];
    let mut session = Session::begin();
    while !session.over {
        let written = runner::run(tape, &mut session, &mut out);
        output.write_all(&out[..written])?;
    }
    Ok(())
}

// Prints the listing of the tape that the input holds. Where the input cannot be read, nothing is printed.
pub fn list_input<R: Read, W: Write>(input: &mut R, output: &mut W) -> Result<(), Failure>
    ensures listed { OnOk result (IfSome (R.remaining input.old) (λ tape. Appends (W.contents output.old) (W.contents output.new) (listing_of tape))) }
    ensures unread { NothingPrinted result (W.contents output.old) (W.contents output.new) }
{
    // One byte more than the longest tape: with it the tape is too long, whatever follows.
    let mut tape = [0u8; runner::LONGEST_TAPE + 1];
    let len = read_tape(input, &mut tape).map_err(Failure::Reading)?;
    print_listing(&tape[..len], output).map_err(Failure::Writing)
}
