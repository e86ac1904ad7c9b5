ghost use Rattle.std.specs.Prelude.{◌≡◌, true, length, is_ok, IfOk, MatchResult};
ghost use Rattle.plans.specs.Fences.{InOrder};
ghost use Rattle.plans.specs.Planned.{planned, old_tag_of, new_tag_of};
ghost use Rattle.plans.specs.Switches.{OnSwitches, OffSwitches};

use crate::fault::PlanFault;
use crate::plan::Plan;
use crate::version::Version;
use configurations::configuration::Configuration;
use rules::row::Row;
use topologies::topology::Topology;

// Each rule is on one of the switches. A loop of its own, since the test and the refusal are other ones than a row's.
fn check_switches(switches: u8, rows: &[Row]) -> Result<(), PlanFault>
    ensures { MatchResult result (λ _. OnSwitches switches rows.now (length rows.now)) (OffSwitches switches rows.now) }
{
    for (place, row) in rows.iter().enumerate() {
        if row.switch >= switches {
            return Err(PlanFault {
                place,
                switch: row.switch,
            });
        }
    }
    Ok(())
}

impl<'a> Plan<'a> {
    // The plan of an update to this configuration, or the first rule that is on no switch of the topology.
    pub fn new(
        topology: &'a Topology,
        configuration: Configuration<'a>,
        in_force: Version,
    ) -> Result<Plan<'a>, PlanFault>
        ensures value { MatchResult result (λ p. (p.topology.now ≡ topology.now) × (p.configuration.rows.now ≡ configuration.entry.rows.now) × (p.in_force ≡ in_force)) (OffSwitches topology.now.switches configuration.entry.rows.now) }
        ensures order { IfOk result (λ p. InOrder (planned p) (old_tag_of p) (new_tag_of p)) }
        ensures granted { OnSwitches topology.now.switches configuration.entry.rows.now (length configuration.entry.rows.now) → is_ok result ≡ true }
    {
        check_switches(topology.switches(), configuration.rows())?;
        Ok(Plan {
            topology,
            configuration,
            in_force,
        })
    }
}
