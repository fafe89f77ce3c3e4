// The tape program: takes a command tape of at most 60,000 bytes from standard input and prints its listing on standard output. Its
// stored input and output are the listing of document 01.
#![tactic(auto)]

mod console;

use std::process::ExitCode;

// A failed read or write is said on standard error in one line, and gives the status 1.
fn main(rt: HostRuntime) -> ExitCode {
    match console::list_input(&mut rt.stdin(), &mut rt.stdout()) {
        Ok(()) => ExitCode::SUCCESS,
        Err(failure) => {
            eprintln!(rt; "{failure}").ok();
            ExitCode::FAILURE
        }
    }
}
