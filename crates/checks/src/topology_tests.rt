use crate::samples::{empty_topology, refusal};
use std::test::Fail;
use topologies::fault::TopologyFault;
use topologies::spot::{PortUse, Spot};
use topologies::topology::Topology;

fn at(switch: u8, port: u8) -> Spot {
    Spot { switch, port }
}

#[test]
fn one_to_sixteen_switches(rt: HostRuntime) {
    assert_eq!(rt; refusal(Topology::new(0)), 35);
    assert_eq!(rt; refusal(Topology::new(1)), 0);
    assert_eq!(rt; refusal(Topology::new(16)), 0);
    assert_eq!(rt; refusal(Topology::new(17)), 35);
    assert!(rt; Topology::new(40).err() == Some(TopologyFault::Switches(40)));
}

#[test]
fn edges_at_the_limits(rt: HostRuntime) -> Result<(), Fail> {
    let mut t = empty_topology(2)?;
    assert_eq!(rt; refusal(t.edge(at(2, 1))), 33);
    assert_eq!(rt; refusal(t.edge(at(0, 0))), 33);
    assert_eq!(rt; refusal(t.edge(at(0, 17))), 33);
    assert_eq!(rt; refusal(t.edge(at(1, 16))), 0);
    assert_eq!(rt; refusal(t.edge(at(1, 16))), 34);
    assert_eq!(rt; t.edge_count(), 1);
    Ok(())
}

#[test]
fn links_refuse_in_order(rt: HostRuntime) -> Result<(), Fail> {
    let mut t = empty_topology(2)?;
    assert_eq!(rt; refusal(t.edge(at(0, 1))), 0);
    assert_eq!(rt;
        refusal(t.link(at(0, 1), at(9, 9))),
        33,
        "a port that is none comes before one that is used"
    );
    assert_eq!(rt; refusal(t.link(at(9, 9), at(0, 1))), 33);
    assert_eq!(rt; refusal(t.link(at(0, 1), at(1, 2))), 34);
    assert_eq!(rt; refusal(t.link(at(1, 2), at(0, 1))), 34);
    assert_eq!(rt; refusal(t.link(at(1, 2), at(1, 2))), 34, "a link to itself");
    assert_eq!(rt; refusal(t.link(at(0, 2), at(1, 2))), 0);
    assert_eq!(rt; refusal(t.edge(at(1, 2))), 34);
    assert_eq!(rt; t.link_count(), 1);
    Ok(())
}

// The port that a refusal names.
fn named(outcome: Result<(), TopologyFault>) -> Option<Spot> {
    match outcome {
        Err(TopologyFault::NoPort(spot) | TopologyFault::Used(spot)) => Some(spot),
        _ => None,
    }
}

#[test]
fn refusals_of_a_link_name_the_first_end_that_is_at_fault(rt: HostRuntime) -> Result<(), Fail> {
    let mut t = empty_topology(2)?;
    assert_eq!(rt; refusal(t.edge(at(0, 1))), 0);
    assert_eq!(rt; refusal(t.edge(at(1, 1))), 0);
    assert!(rt; named(t.link(at(8, 8), at(9, 9))) == Some(at(8, 8)));
    assert!(rt; named(t.link(at(0, 1), at(9, 9))) == Some(at(9, 9)));
    assert!(rt; named(t.link(at(1, 1), at(0, 1))) == Some(at(1, 1)));
    assert!(rt; named(t.link(at(1, 2), at(0, 1))) == Some(at(0, 1)));
    assert!(rt; named(t.link(at(1, 2), at(1, 2))) == Some(at(1, 2)));
    assert_eq!(rt; refusal(t.port_use(at(2, 1))), 33);
    assert_eq!(rt; refusal(t.port_use(at(1, 16))), 0);
    Ok(())
}

fn is_linked_with(t: &Topology, here: Spot, there: Spot) -> bool {
    t.port_use(here) == Ok(PortUse::Linked(there))
}

#[test]
fn a_link_is_mutual_and_a_refusal_leaves_it(rt: HostRuntime) -> Result<(), Fail> {
    let mut t = empty_topology(3)?;
    assert_eq!(rt; refusal(t.link(at(0, 2), at(2, 5))), 0);
    assert_eq!(rt; refusal(t.link(at(0, 2), at(1, 1))), 34);
    assert!(rt; is_linked_with(&t, at(0, 2), at(2, 5)));
    assert!(rt; is_linked_with(&t, at(2, 5), at(0, 2)));
    assert!(rt; !is_linked_with(&t, at(1, 1), at(0, 2)));
    Ok(())
}

#[test]
fn edge_ports_come_by_switch_and_port(rt: HostRuntime) -> Result<(), Fail> {
    let mut t = empty_topology(2)?;
    assert_eq!(rt; refusal(t.edge(at(1, 3))), 0);
    assert_eq!(rt; refusal(t.edge(at(0, 16))), 0);
    assert_eq!(rt; refusal(t.edge(at(0, 4))), 0);
    assert!(rt; t.edge_port(0) == Some(at(0, 4)));
    assert!(rt; t.edge_port(1) == Some(at(0, 16)));
    assert!(rt; t.edge_port(2) == Some(at(1, 3)));
    assert!(rt; t.edge_port(3).is_none());
    Ok(())
}
