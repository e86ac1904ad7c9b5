ghost use Rattle.std.specs.Prelude.{length};
ghost use Rattle.plans.specs.Switches.{OnSwitches};

use crate::version::Version;
use configurations::configuration::Configuration;
use topologies::topology::Topology;

pub mod heading;
pub mod making;
pub mod posting;
pub mod sum;

// An update of a site from the version in force to a new configuration under the other one.
#[derive(Drop)]
pub struct Plan<'a> {
    topology: &'a Topology,
    configuration: Configuration<'a>,
    in_force: Version,
    ghost on: { OnSwitches topology.now.switches configuration.rows.now (length configuration.rows.now) },
}
