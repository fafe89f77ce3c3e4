// What the head says of the channels: of each in use its two nodes, its phase and whether it has an offer; the others are blank.
ghost use Rattle.messages.specs.Decides.{Decides};
ghost use Rattle.soundness.specs.Fits.{PhaseFits, ChannelFits, ChannelsFit};

use batch::PLACES;
use network::{CHANNELS, Head, Ring};

// Phase and offer are in range and go together: a ready channel has no offer, and before the start every channel rests without one.
fn phase_fits(started: bool, phase: u8, offered: u8) -> bool
    ensures { Decides result (PhaseFits started phase offered) }
{
    let none = (phase == Ring::RESTING) & (offered == 0);
    let known = (phase <= Ring::ANSWERING) & (offered <= 1);
    let ready = (phase == Ring::READY) & (offered == 1);
    none | (started & known & !ready)
}

// A channel as the head has it.
#[derive(Clone, Copy)]
struct Channel {
    sender: u8,
    receiver: u8,
    phase: u8,
    offered: u8,
}

impl Channel {
    // A channel, in use or not, but for its records and its message.
    fn fits(self, in_use: bool, started: bool, nodes: u8) -> bool
        ensures { Decides result (ChannelFits in_use started nodes self.sender self.receiver self.phase self.offered) }
    {
        let used = (self.sender < nodes)
            & (self.receiver < nodes)
            & phase_fits(started, self.phase, self.offered);
        let blank = self.sender | self.receiver | self.phase | self.offered == 0;
        (in_use & used) | (!in_use & blank)
    }
}

// All channels, but for their records and messages.
pub fn channels_fit(head: &Head) -> bool
    ensures { Decides result (ChannelsFit head.now) }
{
    let started = head.started == 1;
    let places = PLACES;
    let mut wrong: u8 = 0;
    for k in 0..CHANNELS {
        let channel = Channel {
            sender: head.senders[k],
            receiver: head.receivers[k],
            phase: head.phases[k],
            offered: head.offered[k],
        };
        if !channel.fits(places[k] < head.channel_count, started, head.node_count) {
            wrong += 1;
        }
    }
    wrong == 0
}
