ghost use Rattle.std.specs.Prelude.{◌≡◌, length, Some};
ghost use Rattle.topologies.specs.Ports.{links};
ghost use Rattle.plans.specs.Planned.{switches, ports, rules, edges, old_tag_of, new_tag_of};
ghost use Rattle.plans.specs.Texts.{heading_text};

use crate::plan::Plan;
use std::fmt;

// What an update is about, in numbers.
#[derive(Clone, Copy, PartialEq, Eq)]
pub struct Heading {
    pub switches: u8,
    pub edge_ports: usize,
    pub links: usize,
    pub rules: usize,
    pub old_tag: u16,
    pub new_tag: u16,
}

impl Plan<'_> {
    pub fn heading(&self) -> Heading
        ensures site { (result.switches ≡ switches self.now) × (result.edge_ports ≡ length (edges self.now)) × (result.links ≡ length (links (switches self.now) (ports self.now))) }
        ensures update { (result.rules ≡ length (rules self.now)) × (result.old_tag ≡ old_tag_of self.now) × (result.new_tag ≡ new_tag_of self.now) }
    {
        Heading {
            switches: self.topology.switches(),
            edge_ports: self.topology.edge_count(),
            links: self.topology.link_count(),
            rules: self.configuration.len(),
            old_tag: self.in_force.tag().number(),
            new_tag: self.in_force.other().tag().number(),
        }
    }
}

impl fmt::Display for Heading {
    ghost output = { λ h. Some (heading_text h) };

    fn fmt<W: fmt::Write>(&self, f: &mut fmt::Formatter<W>) -> fmt::Result {
        let Heading {
            switches,
            edge_ports,
            links,
            rules,
            old_tag,
            new_tag,
        } = *self;
        write!(
            f,
            "switches {switches}, edge ports {edge_ports}, links {links}, rules {rules}, tag {old_tag} to tag {new_tag}"
        )
    }
}
