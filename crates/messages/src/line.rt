ghost use Rattle.std.specs.Prelude.{◌≡◌, Some};
ghost use Rattle.messages.specs.Sent.{sent};
ghost use Rattle.messages.specs.Lines.{line_of};
ghost use Rattle.messages.specs.Texts.{kind_text, line_text};

use crate::message::Message;
use rules::row::Action;
use std::fmt;

#[derive(Clone, Copy, PartialEq, Eq)]
pub enum Kind {
    Add,
    Stamp,
    Remove,
    Barrier,
}

// A message as a line of a listing, with 0 for a number that it does not have: a line is its columns, as they are printed.
#[derive(Clone, Copy, PartialEq, Eq)]
pub struct Line {
    pub xid: u32,
    pub switch: u8,
    pub kind: Kind,
    pub tag: u16,
    pub port: u8,
    pub bytes: u16,
}

impl Line {
    // Of two things, so no `From`.
    pub fn of(xid: u32, message: Message) -> Line
        ensures { result ≡ line_of xid (sent message) }
    {
        let (kind, tag, port) = match message {
            Message::Add(add) => {
                let port = match add.rule().row().action {
                    Action::Drop => 0,
                    Action::Out(p) => p,
                };
                (Kind::Add, add.tag().number(), port)
            }
            Message::Stamp { port, tag, .. } => (Kind::Stamp, tag.number(), port.number()),
            Message::Remove { tag, .. } => (Kind::Remove, tag.number(), 0),
            Message::Barrier { .. } => (Kind::Barrier, 0, 0),
        };
        Line {
            xid,
            switch: message.switch().number(),
            kind,
            tag,
            port,
            bytes: message.wire_length(),
        }
    }
}

impl fmt::Display for Kind {
    ghost output = { λ k. Some (kind_text k) };

    fn fmt<W: fmt::Write>(&self, f: &mut fmt::Formatter<W>) -> fmt::Result {
        f.write_str(match self {
            Kind::Add => "add",
            Kind::Stamp => "stamp",
            Kind::Remove => "remove",
            Kind::Barrier => "barrier",
        })
    }
}

impl fmt::Display for Line {
    ghost output = { λ l. Some (line_text l) };

    fn fmt<W: fmt::Write>(&self, f: &mut fmt::Formatter<W>) -> fmt::Result {
        let Line {
            xid,
            switch,
            kind,
            tag,
            port,
            bytes,
        } = *self;
        write!(f, "{xid} {switch} {kind} {tag} {port} {bytes}")
    }
}
