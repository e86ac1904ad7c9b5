ghost use Rattle.std.specs.Prelude.{◌≡◌, ◌+◌, ◌*◌, length, Some};
ghost use Rattle.plans.specs.Texts.{sum_text};
ghost use Rattle.plans.specs.Planned.{switches, rules, edges, planned};

use crate::plan::Plan;
use std::fmt;

// How many messages a series has, in all and by what they are for.
#[derive(Clone, Copy, PartialEq, Eq)]
pub struct Sum {
    pub total: u32,
    pub rules: u32,
    pub edge_ports: u32,
    // Four per switch: three barriers and a remove.
    pub switch_messages: u32,
}

impl Plan<'_> {
    pub fn sum(&self) -> Sum
        ensures parts { (result.rules ≡ length (rules self.now)) × (result.edge_ports ≡ length (edges self.now)) × (result.switch_messages ≡ 4 * switches self.now) }
        ensures whole { (result.total ≡ length (planned self.now)) × (result.total ≡ result.rules + result.edge_ports + result.switch_messages) }
    {
        let rules = self.configuration.len() as u32;
        let edge_ports = self.topology.edge_count() as u32;
        let switch_messages = 4 * u32::from(self.topology.switches());
        Sum {
            total: rules + edge_ports + switch_messages,
            rules,
            edge_ports,
            switch_messages,
        }
    }
}

impl fmt::Display for Sum {
    ghost output = { λ s. Some (sum_text s) };

    fn fmt<W: fmt::Write>(&self, f: &mut fmt::Formatter<W>) -> fmt::Result {
        let Sum {
            total,
            rules,
            edge_ports,
            switch_messages,
        } = *self;
        write!(
            f,
            "sum {total}: {rules} for rules, {edge_ports} for edge ports, {switch_messages} for switches"
        )
    }
}
