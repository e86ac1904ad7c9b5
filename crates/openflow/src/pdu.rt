ghost use Rattle.std.specs.Prelude.{◌≡◌};
ghost use Rattle.openflow.specs.Carried.{carried, switch_at};

use messages::message::Message;
use rules::switch::Switch;

// A protocol data unit, what a control connection carries at a time: a message to a switch, or a switch's reply.
// Not a `Result`, since neither is a failure.
#[derive(Clone, Copy, PartialEq, Eq)]
pub enum Pdu {
    Message(Message),
    // A switch's answer to a barrier.
    Reply { switch: Switch },
}

impl Pdu {
    // The switch at the other end.
    pub fn switch(self) -> Switch
        ensures { result.number ≡ switch_at (carried self) }
    {
        match self {
            Pdu::Message(message) => message.switch(),
            Pdu::Reply { switch } => switch,
        }
    }
}
