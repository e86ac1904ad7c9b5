use crate::samples::{configured, drop_all, empty_topology, refusal};
use configurations::configuration::Configuration;
use example::site;
use messages::add::Add;
use plans::fault::PlanFault;
use plans::plan::Plan;
use plans::version::Version;
use rules::row::{Action, Row};
use rules::rule::Rule;
use std::fmt::Display;
use std::test::Fail;
use topologies::spot::Spot;
use topologies::topology::Topology;

// The number of the refusal of a plan, or 0: the numbers are what the tests expect.
fn planning(topology: &Topology, rows: &[Row]) -> Result<u8, Fail> {
    Ok(refusal(Plan::new(topology, configured(rows)?, Version::First)))
}

#[test]
fn a_rule_off_the_topology_is_refused(rt: HostRuntime) -> Result<(), Fail> {
    let topology = site::topology().map_err(|_| "no site")?;
    assert_eq!(rt; planning(&topology, &[drop_all(1, 1)])?, 0);
    assert_eq!(rt; planning(&topology, &[drop_all(2, 1)])?, 72);
    let rows = [drop_all(0, 1), drop_all(5, 1), drop_all(2, 1)];
    let refused = PlanFault {
        place: 1,
        switch: 5,
    };
    let plan = Plan::new(&topology, configured(&rows)?, Version::First);
    assert!(rt; plan.err() == Some(refused));
    Ok(())
}

#[test]
fn the_smallest_series_has_four_messages(rt: HostRuntime) -> Result<(), Fail> {
    let topology = empty_topology(1)?;
    let plan = Plan::new(&topology, Configuration::new(), Version::First).map_err(|_| "refused")?;
    assert_eq!(rt; plan.sum().total, 4);
    assert!(rt; plan.line(4).is_some());
    assert!(rt; plan.line(5).is_none());
    assert!(rt; plan.line(0).is_none());
    Ok(())
}

// From tag 2 back to tag 1; a drop, an out port that is no edge port, and an edge port.
#[test]
fn lengths_and_tags_of_an_update_back(rt: HostRuntime) -> Result<(), Fail> {
    let mut topology = empty_topology(1)?;
    assert!(rt; topology.edge(Spot { switch: 0, port: 3 }).is_ok());
    let rows = [
        drop_all(0, 1),
        Row {
            action: Action::Out(2),
            ..drop_all(0, 2)
        },
        Row {
            action: Action::Out(3),
            ..drop_all(0, 3)
        },
    ];
    let plan = Plan::new(&topology, configured(&rows)?, Version::Second).map_err(|_| "refused")?;
    let drop = plan.line(1).ok_or("none")?;
    let out = plan.line(2).ok_or("none")?;
    let strip = plan.line(3).ok_or("none")?;
    let stamp = plan.line(5).ok_or("none")?;
    let remove = plan.line(7).ok_or("none")?;
    // Field by field, since each line's other fields are no part of the test.
    assert!(rt; drop.bytes == 72 && drop.port == 0 && drop.tag == 1);
    assert!(rt; out.bytes == 80 && out.port == 2);
    assert!(rt; strip.bytes == 88 && strip.port == 3);
    assert!(rt; stamp.bytes == 80 && stamp.port == 3 && stamp.tag == 1);
    assert!(rt; remove.bytes == 72 && remove.tag == 2);
    Ok(())
}

// Five numbers that all differ, so that none can stand for another.
#[test]
fn the_heading_and_the_sum_of_a_larger_site(rt: HostRuntime) -> Result<(), Fail> {
    let mut topology = empty_topology(5)?;
    for port in 1..=3 {
        assert!(rt; topology.edge(Spot { switch: 4, port }).is_ok());
    }
    assert!(rt;
        topology
            .link(Spot { switch: 0, port: 1 }, Spot { switch: 1, port: 1 })
            .is_ok()
    );
    assert!(rt;
        topology
            .link(Spot { switch: 3, port: 2 }, Spot { switch: 2, port: 9 })
            .is_ok()
    );
    let rows = [
        drop_all(0, 1),
        drop_all(0, 2),
        drop_all(1, 1),
        drop_all(4, 9),
    ];
    let plan = Plan::new(&topology, configured(&rows)?, Version::Second).map_err(|_| "refused")?;
    let heading = plan.heading().to_string(rt.alloc())?;
    assert_eq!(rt;
        heading.as_str(),
        "switches 5, edge ports 3, links 2, rules 4, tag 2 to tag 1"
    );
    let sum = plan.sum().to_string(rt.alloc())?;
    assert_eq!(rt;
        sum.as_str(),
        "sum 27: 4 for rules, 3 for edge ports, 20 for switches"
    );
    Ok(())
}

#[test]
fn a_drop_is_never_marked_strip(rt: HostRuntime) -> Result<(), Fail> {
    let rule = Rule::new(drop_all(0, 1)).map_err(|_| "no rule")?;
    assert!(rt; !Add::new(Version::First.tag(), rule, true).strip());
    Ok(())
}
