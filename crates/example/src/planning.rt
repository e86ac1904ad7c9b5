ghost use Rattle.std.specs.Prelude.{◌≡◌, true, is_ok, IfOk};
ghost use Rattle.std.specs.Fn.{FnOnceReturnsAt};
ghost use Rattle.plans.specs.Planned.{planned};
ghost use Rattle.plans.specs.Series.{series};
ghost use Rattle.plans.specs.declared.plan.Plan.{Plan};
ghost use Rattle.example.specs.Site.{site_ports, site_rules};

use crate::fault::PlanningFault;
use crate::site;
use configurations::configuration::Configuration;
use plans::plan::Plan;
use plans::version::Version;

// Plans the update of the example site to its new rules, and answers what is made of the plan.
pub fn with_plan<R: Drop, F: FnOnce(&Plan<'_>) -> R>(make: F) -> Result<R, PlanningFault>
    requires { F.IsAlwaysCallable make }
    ensures granted { is_ok result ≡ true }
    ensures value { IfOk result (λ made. (p : Plan) × (planned p ≡ series 2 site_ports site_rules 1 2) × FnOnceReturnsAt F.FnOnce make p made) }
{
    let topology = site::topology()?;
    let rows = site::rows();
    let mut configuration = Configuration::new();
    configuration.set(&rows)?;
    let plan = Plan::new(&topology, configuration, Version::First)?;
    Ok(make(&plan))
}
