ghost use Rattle.std.specs.Prelude.{◌≡◌, ◌-◌, ◌<◌, ◌≤◌, ◌++◌};
ghost use Rattle.std.specs.Option.{option_map};
ghost use Rattle.std.specs.List.{range_with_len, slice_get};
ghost use Rattle.rules.specs.declared.switch.Switch.{Switch};
ghost use Rattle.messages.specs.Lines.{line_of};
ghost use Rattle.messages.specs.Sent.{sent};
ghost use Rattle.plans.specs.Planned.{switches, ports, rules, old_tag_of, new_tag_of, planned};
ghost use Rattle.plans.specs.Series.{to_edge_port, adds, barriers, removes, stamps, installing, flipping, collecting, with_xid};

use crate::plan::Plan;
use messages::add::Add;
use messages::line::Line;
use messages::message::Message;
use patterns::port::Port;
use rules::row::Action;
use rules::rule::Rule;
use rules::switch::Switch;
use topologies::spot::{PortUse, Spot};
use topologies::topology::Topology;

// Whether a rule's out port is an edge port.
fn leaves(topology: &Topology, rule: Rule) -> bool
    ensures { result ≡ to_edge_port topology.now.switches topology.now.ports rule.row.switch rule.row.action }
{
    let row = rule.row();
    match row.action {
        Action::Drop => false,
        Action::Out(port) => {
            let at = Spot {
                switch: row.switch,
                port,
            };
            matches!(topology.port_use(at), Ok(PortUse::Edge))
        }
    }
}

// A switch of the topology.
fn switch(topology: &Topology, number: usize) -> Option<Switch>
    ensures { option_map (λ (s : Switch). s.number) result ≡ slice_get (range_with_len 0 topology.now.switches) number }
{
    if number >= usize::from(topology.switches()) {
        return None;
    }
    Switch::new(number as u8)
}

impl<'a> Plan<'a> {
    // The add of the rule at a place of the configuration.
    fn add(&self, place: usize) -> Option<Message>
        ensures { option_map sent result ≡ slice_get (adds (switches self.now) (ports self.now) (rules self.now) (new_tag_of self.now)) place }
    {
        let rule = self.configuration.rule(place)?;
        let strip = leaves(self.topology, rule);
        Some(Message::Add(Add::new(self.in_force.other().tag(), rule, strip)))
    }

    fn barrier(&self, place: usize) -> Option<Message>
        ensures { option_map sent result ≡ slice_get (barriers (switches self.now)) place }
    {
        let switch = switch(self.topology, place)?;
        Some(Message::Barrier { switch })
    }

    fn remove(&self, place: usize) -> Option<Message>
        ensures { option_map sent result ≡ slice_get (removes (switches self.now) (old_tag_of self.now)) place }
    {
        let switch = switch(self.topology, place)?;
        Some(Message::Remove {
            switch,
            tag: self.in_force.tag(),
        })
    }

    fn stamp(&self, place: usize) -> Option<Message>
        ensures { option_map sent result ≡ slice_get (stamps (switches self.now) (ports self.now) (new_tag_of self.now)) place }
    {
        let at = self.topology.edge_port(place)?;
        let (switch, port) = (Switch::new(at.switch).unwrap(), Port::new(at.port).unwrap());
        Some(Message::Stamp {
            switch,
            port,
            tag: self.in_force.other().tag(),
        })
    }

    // What stands at a place of two series, one after the other, the first of which is so long.
    fn joined<
        F: FnOnce(&Self, usize) -> Option<Message>,
        G: FnOnce(&Self, usize) -> Option<Message>,
    >(&self, place: usize, length: usize, first: F, second: G) -> Option<Message>
        requires first { F.IsAlwaysCallable first }
        requires second { G.IsAlwaysCallable second }
        ensures front { place < length → F.post first self.entry place result }
        ensures back { length ≤ place → G.post second self.entry (place - length) result }
    {
        if place < length {
            first(self, place)
        } else {
            second(self, place - length)
        }
    }

    // What the stages post, each by place from 0.

    fn installing(&self, place: usize) -> Option<Message>
        ensures { option_map sent result ≡ slice_get (installing (switches self.now) (ports self.now) (rules self.now) (new_tag_of self.now)) place }
    {
        self.joined(place, self.configuration.len(), Self::add, Self::barrier)
    }

    fn flipping(&self, place: usize) -> Option<Message>
        ensures { option_map sent result ≡ slice_get (flipping (switches self.now) (ports self.now) (new_tag_of self.now)) place }
    {
        self.joined(
            place,
            self.topology.edge_count(),
            Self::stamp,
            Self::barrier,
        )
    }

    fn collecting(&self, place: usize) -> Option<Message>
        ensures { option_map sent result ≡ slice_get (collecting (switches self.now) (old_tag_of self.now)) place }
    {
        self.joined(
            place,
            usize::from(self.topology.switches()),
            Self::remove,
            Self::barrier,
        )
    }

    // What the stages after the installing post.
    fn replacing(&self, place: usize) -> Option<Message>
        ensures { option_map sent result ≡ slice_get (flipping (switches self.now) (ports self.now) (new_tag_of self.now) ++ collecting (switches self.now) (old_tag_of self.now)) place }
    {
        let flip = self.topology.edge_count() + usize::from(self.topology.switches());
        self.joined(place, flip, Self::flipping, Self::collecting)
    }

    // The message at a place of the whole series, from 0.
    fn at(&self, place: usize) -> Option<Message>
        ensures { option_map sent result ≡ slice_get (planned self.now) place }
    {
        let install = self.configuration.len() + usize::from(self.topology.switches());
        self.joined(place, install, Self::installing, Self::replacing)
    }

    // The message with an xid; the first has xid 1.
    pub fn message(&self, xid: u32) -> Option<Message>
        ensures { option_map sent result ≡ with_xid (planned self.now) xid }
    {
        if xid == 0 {
            return None;
        }
        self.at(xid as usize - 1)
    }

    // The same as a line of a listing.
    pub fn line(&self, xid: u32) -> Option<Line>
        ensures { result ≡ option_map (line_of xid) (with_xid (planned self.now) xid) }
    {
        self.message(xid).map(|message| Line::of(xid, message))
    }
}
