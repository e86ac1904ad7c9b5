ghost use Rattle.std.specs.Prelude.{◌≡◌, ◌≤◌};
ghost use Rattle.topologies.specs.Ports.{Paired};

use crate::spot::PortUse;

pub mod building;
pub mod edges;

// The switches of a site, numbered from 0, with ports 1 to 16.
#[derive(Drop)]
pub struct Topology {
    switches: u8,
    // 16 to a switch, by switch and port: fixed memory, nothing allocates, and the order is that in which ports are counted.
    ports: [PortUse; 256],
    ghost few: { (1 ≤ switches) × (switches ≤ 16) },
    ghost paired: { Paired switches ports },
}

impl Topology {
    // How many there are.
    pub fn switches(&self) -> u8
        ensures { result ≡ self.now.switches }
    {
        self.switches
    }
}
