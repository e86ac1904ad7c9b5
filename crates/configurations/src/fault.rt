ghost use Rattle.configurations.specs.Faults.{configuration_number};

use refusals::refusal::Refusal;
use rules::fault::RuleFault;

// Why a list of rows is no configuration.
#[derive(Clone, Copy, PartialEq, Eq)]
pub enum ConfigurationFault {
    // The number of rows.
    TooMany(usize),
    // The lowest place whose row makes no rule, and why.
    Row { place: usize, fault: RuleFault },
    // The lowest place whose rule clashes with an earlier one, and the lowest place of such an earlier one.
    Clash { later: usize, earlier: usize },
}

impl Refusal for ConfigurationFault {
    ghost number_of = { configuration_number };

    fn number(self) -> u8 {
        match self {
            ConfigurationFault::TooMany(_) => 31,
            ConfigurationFault::Row { fault, .. } => fault.number(),
            ConfigurationFault::Clash { .. } => 32,
        }
    }
}
