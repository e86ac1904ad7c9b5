use crate::samples::{configured, drop_all, drop_to, refusal};
use configurations::configuration::Configuration;
use configurations::fault::ConfigurationFault;
use refusals::refusal::Refusal;
use rules::row::Row;
use std::alloc::{AllocError, Global};
use std::test::Fail;

// So many rows on one switch, each with a priority of its own.
fn many(heap: Global, n: u16) -> Result<Vec<Row>, AllocError> {
    (0..n).map(|priority| drop_all(0, priority)).collect(heap)
}

fn setting(rows: &[Row]) -> Result<(), ConfigurationFault> {
    Configuration::new().set(rows)
}

#[test]
fn at_most_256_rules(rt: HostRuntime) -> Result<(), Fail> {
    let rows = many(rt.alloc(), 256)?;
    assert_eq!(rt; refusal(setting(&rows)), 0);
    let rows = many(rt.alloc(), 257)?;
    assert_eq!(rt; refusal(setting(&rows)), 31);
    Ok(())
}

#[test]
fn too_many_comes_before_a_bad_row_and_a_clash(rt: HostRuntime) -> Result<(), Fail> {
    let mut rows = many(rt.alloc(), 256)?;
    rows.push(drop_all(16, 0))?;
    assert_eq!(rt; refusal(setting(&rows)), 31);
    let mut rows = many(rt.alloc(), 256)?;
    rows.push(drop_all(0, 0))?;
    rows.push(drop_all(0, 0))?;
    assert!(rt; setting(&rows) == Err(ConfigurationFault::TooMany(258)));
    Ok(())
}

#[test]
fn the_lowest_bad_row_is_named_before_any_clash(rt: HostRuntime) -> Result<(), Fail> {
    let rows = [
        drop_all(0, 1),
        drop_all(0, 1),
        drop_all(3, 1),
        drop_all(16, 1),
        drop_all(17, 1),
    ];
    // In parts, since of the row's own fault the number alone is expected.
    let Err(ConfigurationFault::Row { place, fault }) = setting(&rows) else {
        return Err(Fail::new("no bad row"));
    };
    assert_eq!(rt; place, 3);
    assert_eq!(rt; fault.number(), 21);
    Ok(())
}

// The rule at 3 clashes with those at 0 and 2, the one at 4 with that at 1.
#[test]
fn the_lowest_later_place_then_the_lowest_earlier(rt: HostRuntime) {
    let rows = [
        drop_to(0, 5, 0x0a00_0000, 9),
        drop_all(1, 5),
        drop_to(0, 5, 0x0a80_0000, 9),
        drop_to(0, 5, 0x0a00_0000, 8),
        drop_all(1, 5),
    ];
    let clash = ConfigurationFault::Clash {
        later: 3,
        earlier: 0,
    };
    assert!(rt; setting(&rows) == Err(clash));
}

#[test]
fn equal_priority_is_granted_where_patterns_do_not_meet(rt: HostRuntime) {
    let rows = [drop_to(0, 5, 0x0a00_0000, 9), drop_to(0, 5, 0x0a80_0000, 9)];
    assert_eq!(rt; refusal(setting(&rows)), 0);
}

#[test]
fn a_refused_setting_leaves_the_configuration(rt: HostRuntime) -> Result<(), Fail> {
    let rows = [drop_all(0, 1), drop_all(0, 2), drop_all(0, 2)];
    let mut configuration = configured(&rows[..2])?;
    assert!(rt; configuration.set(&rows).is_err());
    assert_eq!(rt; configuration.len(), 2);
    let second = configuration.rule(1).ok_or("no rule")?;
    assert_eq!(rt; second.row().priority, 2);
    Ok(())
}

#[test]
fn a_new_configuration_is_empty(rt: HostRuntime) {
    assert_eq!(rt; Configuration::new().len(), 0);
}
