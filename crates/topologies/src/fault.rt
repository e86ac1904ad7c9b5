ghost use Rattle.topologies.specs.Faults.{topology_number};

use crate::spot::Spot;
use refusals::refusal::Refusal;

// Why a topology is not made or changed.
#[derive(Clone, Copy, PartialEq, Eq)]
pub enum TopologyFault {
    // A number of switches outside 1 to 16.
    Switches(u8),
    // No port of the topology.
    NoPort(Spot),
    // A port that is used already, or both ends of one link.
    Used(Spot),
}

impl Refusal for TopologyFault {
    ghost number_of = { topology_number };

    fn number(self) -> u8 {
        match self {
            TopologyFault::Switches(_) => 35,
            TopologyFault::NoPort(_) => 33,
            TopologyFault::Used(_) => 34,
        }
    }
}
