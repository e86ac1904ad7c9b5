ghost use Rattle.std.specs.Prelude.{◌≡◌, MatchResult};
ghost use Rattle.rules.specs.declared.row.Action.TheVariants.{Drop};

use configurations::configuration::Configuration;
use refusals::refusal::Refusal;
use rules::row::{Action, Block, PatternRow, Row};
use std::test::Fail;
use topologies::topology::Topology;

// The number of the refusal that an outcome holds, or 0 where it holds none: the numbers are what the tests expect.
pub fn refusal<T: Drop, F: Refusal>(outcome: Result<T, F>) -> u8
    ensures { MatchResult outcome (λ _. result ≡ 0) (λ fault. result ≡ F.number_of fault) }
{
    outcome.err().map_or(0, |fault| fault.number())
}

// A topology of so many switches, with no port in use.
pub fn empty_topology(switches: u8) -> Result<Topology, Fail> {
    Topology::new(switches).map_err(|_| Fail::new("no topology"))
}

// The configuration of these rows.
pub fn configured(rows: &[Row]) -> Result<Configuration<'_>, Fail> {
    let mut configuration = Configuration::new();
    configuration.set(rows).map_err(|_| "no configuration")?;
    Ok(configuration)
}

const ANY: Block = Block {
    address: 0,
    length: 0,
};

// The pattern of every packet.
pub const OPEN: PatternRow = PatternRow {
    in_port: None,
    source: ANY,
    destination: ANY,
    protocol: None,
    destination_port: None,
};

// A row that drops every packet.
pub fn drop_all(switch: u8, priority: u16) -> Row
    ensures { (result.switch ≡ switch) × (result.priority ≡ priority) × (result.action ≡ Drop) }
{
    Row {
        switch,
        priority,
        pattern: OPEN,
        action: Action::Drop,
    }
}

// A row that drops the packets to a block of addresses.
pub fn drop_to(switch: u8, priority: u16, address: u32, length: u8) -> Row
    ensures { (result.switch ≡ switch) × (result.priority ≡ priority) × (result.action ≡ Drop) }
{
    Row {
        pattern: PatternRow {
            destination: Block { address, length },
            ..OPEN
        },
        ..drop_all(switch, priority)
    }
}
