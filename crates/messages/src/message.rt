ghost use Rattle.std.specs.Prelude.{◌≡◌};
ghost use Rattle.messages.specs.Sent.{sent, switch_of, wire_length};

use crate::add::Add;
use patterns::port::Port;
use rules::row::Action;
use rules::switch::Switch;
use rules::tag::Tag;

// A message to one switch; an add goes to its rule's.
#[derive(Clone, Copy, PartialEq, Eq)]
pub enum Message {
    Add(Add),
    // An edge port, and the tag with which it stamps packets from then on.
    Stamp {
        switch: Switch,
        port: Port,
        tag: Tag,
    },
    // All rules of the switch under the tag.
    Remove {
        switch: Switch,
        tag: Tag,
    },
    // Answered once all earlier messages are carried out.
    Barrier {
        switch: Switch,
    },
}

impl Message {
    // The switch that it goes to.
    pub fn switch(self) -> Switch
        ensures { result.number ≡ switch_of (sent self) }
    {
        match self {
            Message::Add(add) => add.rule().switch(),
            Message::Stamp { switch, .. } => switch,
            Message::Remove { switch, .. } => switch,
            Message::Barrier { switch } => switch,
        }
    }

    // Its length on the wire.
    pub fn wire_length(self) -> u16
        ensures { result ≡ wire_length (sent self) }
    {
        match self {
            Message::Add(add) => match add.rule().row().action {
                Action::Drop => 72,
                Action::Out(_) => { if add.strip() { 88 } else { 80 } }
            },
            Message::Stamp { .. } => 80,
            Message::Remove { .. } => 72,
            Message::Barrier { .. } => 8,
        }
    }
}

// Holds that a message's numbers tell it from every other, so that a contract on `sent` says which message it is.
pub fn numbers_tell_messages()
    ensures { (a b : Message) → sent a ≡ sent b → a ≡ b }
{}
