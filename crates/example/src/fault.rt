ghost use Rattle.std.specs.Prelude.{◌≡◌};
ghost use Rattle.example.specs.Faults.{planning_number};
ghost use Rattle.example.specs.declared.fault.PlanningFault.TheVariants as fault;

use configurations::fault::ConfigurationFault;
use plans::fault::PlanFault;
use refusals::refusal::Refusal;
use topologies::fault::TopologyFault;

// Why an update is not planned: the refusal of the step that failed.
#[derive(Clone, Copy, PartialEq, Eq)]
pub enum PlanningFault {
    Topology(TopologyFault),
    Configuration(ConfigurationFault),
    Plan(PlanFault),
}

impl From<TopologyFault> for PlanningFault {
    ghost from_gives = { λ f refusal. refusal ≡ fault.Topology f };

    fn from(fault: TopologyFault) -> PlanningFault {
        PlanningFault::Topology(fault)
    }
}

impl From<ConfigurationFault> for PlanningFault {
    ghost from_gives = { λ f refusal. refusal ≡ fault.Configuration f };

    fn from(fault: ConfigurationFault) -> PlanningFault {
        PlanningFault::Configuration(fault)
    }
}

impl From<PlanFault> for PlanningFault {
    ghost from_gives = { λ f refusal. refusal ≡ fault.Plan f };

    fn from(fault: PlanFault) -> PlanningFault {
        PlanningFault::Plan(fault)
    }
}

impl Refusal for PlanningFault {
    ghost number_of = { planning_number };

    fn number(self) -> u8 {
        match self {
            PlanningFault::Topology(fault) => fault.number(),
            PlanningFault::Configuration(fault) => fault.number(),
            PlanningFault::Plan(fault) => fault.number(),
        }
    }
}
