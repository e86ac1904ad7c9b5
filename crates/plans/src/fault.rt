ghost use Rattle.plans.specs.Faults.{plan_number};

use refusals::refusal::Refusal;

// The lowest place of a rule on a switch that the topology does not have, and that switch.
#[derive(Clone, Copy, PartialEq, Eq)]
pub struct PlanFault {
    pub place: usize,
    pub switch: u8,
}

impl Refusal for PlanFault {
    ghost number_of = { plan_number };

    fn number(self) -> u8 {
        72
    }
}
