// Every command by one name: `perform` makes it on a lent ring. A command that is added to the ring has one line here. (The list is closed, so
// a match is plainer than a table of functions, and the check asks for every line.) `by_value` has the same, and the questions and the
// dispatcher, on a ring by value.
#![tactic(auto)]

pub mod by_value;

ghost use Rattle.std.specs.Prelude.{◌≡◌};
ghost use Rattle.network.specs.Answers.{call_of};
ghost use Rattle.network.specs.Layout.{ring_after, reply_to};

use command::{Action, Command};
use network::{Reply, Ring};
use plan::{add_channel, add_node, start};
use tasks::{receive, send, withdraw};
use traffic::{enter, move_on};

pub fn perform(ring: &mut Ring, command: Command) -> Reply
    ensures { (ring.new ≡ ring_after (call_of command) ring.old)
        × (result ≡ reply_to (call_of command) ring.old) }
{
    match command.action {
        Action::AddNode(n) => add_node(ring, n),
        Action::AddChannel(p, q) => add_channel(ring, p, q),
        Action::Start => start(ring),
        Action::Receive(k) => receive(ring, k),
        Action::Send(k, scale) => send(ring, k, scale, command.fields),
        Action::Enter(p) => enter(ring, p),
        Action::Move(p) => move_on(ring, p),
        Action::Withdraw(k) => withdraw(ring, k),
    }
}
