// The commands, the questions and the dispatcher on a ring by value: what goes in is the whole ring, and what comes out is the whole ring
// afterwards with the reply. A question leaves the ring, so its answer stands alone. The promises of `network` are of functions with these
// contracts; each lends its ring to the function on a lent one.
ghost use Rattle.std.specs.Prelude.{◌≡◌};
ghost use Rattle.network.specs.Answers.{call_of, question_call};
ghost use Rattle.network.specs.Dispatcher.{dispatch_step};
ghost use Rattle.network.specs.Layout.{step_ring, answer_to};

use command::{Command, Question};
use network::{DispatchStep, Reply, Ring, Step};

pub fn perform(ring: Ring, command: Command) -> Step
    ensures { result ≡ step_ring (call_of command) ring }
{
    let mut ring = ring;
    let reply = crate::perform(&mut ring, command);
    Step { ring, reply }
}

pub fn ask(ring: Ring, question: Question) -> Reply
    ensures { result ≡ answer_to (question_call question) ring }
{
    questions::ask(&ring, question)
}

// Runs the ring for so many rounds, or until nothing is on it. A round tries an entry and then a move at every node, from node 0 on.
pub fn dispatch(ring: Ring, rounds: u16) -> DispatchStep
    ensures { result ≡ dispatch_step rounds ring }
{
    let mut ring = ring;
    let dispatched = dispatch::dispatch(&mut ring, rounds);
    DispatchStep { ring, dispatched }
}
