ghost use Rattle.std.specs.Prelude.{◌≡◌, true, is_ok, IfOk};
ghost use Rattle.example.specs.Site.{site_ports, site_rules};

use rules::row::{Action, Block, PatternRow, Row};
use topologies::fault::TopologyFault;
use topologies::spot::Spot;
use topologies::topology::Topology;

// Two switches with a host each, linked.
pub fn topology() -> Result<Topology, TopologyFault>
    ensures granted { is_ok result ≡ true }
    ensures value { IfOk result (λ t. (t.switches ≡ 2) × (t.ports ≡ site_ports)) }
{
    let mut site = Topology::new(2)?;
    site.edge(Spot { switch: 0, port: 1 })?;
    site.edge(Spot { switch: 1, port: 1 })?;
    site.link(Spot { switch: 0, port: 2 }, Spot { switch: 1, port: 2 })?;
    Ok(site)
}

// Packets to 10.1.0.0/16 go over the link and leave at switch 1.
pub fn rows() -> [Row; 2]
    ensures { result ≡ site_rules }
{
    let any = Block {
        address: 0,
        length: 0,
    };
    let pattern = PatternRow {
        in_port: None,
        source: any,
        destination: Block {
            address: 0x0a01_0000,
            length: 16,
        },
        protocol: None,
        destination_port: None,
    };
    [
        Row {
            switch: 0,
            priority: 10,
            pattern,
            action: Action::Out(2),
        },
        Row {
            switch: 1,
            priority: 10,
            pattern,
            action: Action::Out(1),
        },
    ]
}
