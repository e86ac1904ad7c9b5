use crate::samples::{OPEN, drop_to, refusal};
use patterns::port::Port;
use rules::fault::{RuleFault, TagFault};
use rules::header::Header;
use rules::row::{Action, Block, PatternRow, Row};
use rules::rule::Rule;
use rules::tag::Tag;
use std::test::Fail;

fn row(switch: u8, pattern: PatternRow, action: Action) -> Row {
    Row {
        switch,
        priority: 10,
        pattern,
        action,
    }
}

// The number of the refusal of a row, or 0 where it makes a rule: the numbers are what the tests expect.
fn number(row: Row) -> u8 {
    refusal(Rule::new(row))
}

fn with_in_port(port: u8) -> PatternRow {
    PatternRow {
        in_port: Some(port),
        ..OPEN
    }
}

fn with_source(address: u32, length: u8) -> PatternRow {
    PatternRow {
        source: Block { address, length },
        ..OPEN
    }
}

fn with_destination(address: u32, length: u8) -> PatternRow {
    PatternRow {
        destination: Block { address, length },
        ..OPEN
    }
}

fn with_port(protocol: Option<u8>, port: u16) -> PatternRow {
    PatternRow {
        protocol,
        destination_port: Some(port),
        ..OPEN
    }
}

#[test]
fn switches_ports_and_out_ports_at_their_edges(rt: HostRuntime) {
    assert_eq!(rt; number(row(15, OPEN, Action::Drop)), 0);
    assert_eq!(rt; number(row(16, OPEN, Action::Drop)), 21);
    assert_eq!(rt; number(row(0, with_in_port(0), Action::Drop)), 22);
    assert_eq!(rt; number(row(0, with_in_port(1), Action::Drop)), 0);
    assert_eq!(rt; number(row(0, with_in_port(16), Action::Drop)), 0);
    assert_eq!(rt; number(row(0, with_in_port(17), Action::Drop)), 22);
    assert_eq!(rt; number(row(0, OPEN, Action::Out(0))), 26);
    assert_eq!(rt; number(row(0, OPEN, Action::Out(1))), 0);
    assert_eq!(rt; number(row(0, OPEN, Action::Out(16))), 0);
    assert_eq!(rt; number(row(0, OPEN, Action::Out(17))), 26);
}

#[test]
fn prefixes_at_their_edges(rt: HostRuntime) {
    assert_eq!(rt;
        number(row(0, with_source(0xffff_ffff, 32), Action::Drop)),
        0
    );
    assert_eq!(rt;
        number(row(0, with_source(0xffff_ffff, 33), Action::Drop)),
        23
    );
    assert_eq!(rt; number(row(0, with_destination(0, 33), Action::Drop)), 23);
    assert_eq!(rt;
        number(row(0, with_source(0x0a01_0000, 16), Action::Drop)),
        0
    );
    assert_eq!(rt;
        number(row(0, with_source(0x0a01_0001, 16), Action::Drop)),
        24
    );
    assert_eq!(rt;
        number(row(0, with_destination(0x0a01_8000, 16), Action::Drop)),
        24
    );
    assert_eq!(rt;
        number(row(0, with_destination(0x0a01_8000, 17), Action::Drop)),
        0
    );
    assert_eq!(rt; number(row(0, with_destination(1, 0), Action::Drop)), 24);
}

#[test]
fn a_destination_port_needs_tcp_or_udp(rt: HostRuntime) {
    assert_eq!(rt; number(row(0, with_port(Some(1), 443), Action::Drop)), 25);
    assert_eq!(rt; number(row(0, with_port(Some(17), 443), Action::Drop)), 0);
    assert_eq!(rt; number(row(0, with_port(Some(6), 443), Action::Drop)), 0);
    assert_eq!(rt; number(row(0, with_port(None, 443), Action::Drop)), 25);
    assert_eq!(rt;
        number(row(
            0,
            PatternRow {
                protocol: Some(1),
                ..OPEN
            },
            Action::Drop,
        )),
        0
    );
}

// Each row has the fault of its number and of all later ones.
#[test]
fn the_first_fault_is_named(rt: HostRuntime) {
    let last = with_port(Some(1), 443);
    let bits = PatternRow {
        destination: Block {
            address: 1,
            length: 8,
        },
        ..last
    };
    let length = PatternRow {
        source: Block {
            address: 1,
            length: 40,
        },
        ..bits
    };
    let in_port = PatternRow {
        in_port: Some(20),
        ..length
    };
    assert_eq!(rt; number(row(99, in_port, Action::Out(0))), 21);
    assert_eq!(rt; number(row(1, in_port, Action::Out(0))), 22);
    assert_eq!(rt; number(row(1, length, Action::Out(0))), 23);
    assert_eq!(rt; number(row(1, bits, Action::Out(0))), 24);
    assert_eq!(rt; number(row(1, last, Action::Out(0))), 25);
    assert_eq!(rt; number(row(1, OPEN, Action::Out(0))), 26);
    let destination_too_long = PatternRow {
        source: Block {
            address: 1,
            length: 8,
        },
        destination: Block {
            address: 0,
            length: 33,
        },
        ..OPEN
    };
    assert_eq!(rt;
        number(row(1, destination_too_long, Action::Drop)),
        23,
        "both lengths come before any bit"
    );
}

#[test]
fn the_source_is_named_before_the_destination(rt: HostRuntime) {
    let long = PatternRow {
        source: Block {
            address: 0,
            length: 40,
        },
        destination: Block {
            address: 0,
            length: 50,
        },
        ..OPEN
    };
    assert!(rt; Rule::new(row(0, long, Action::Drop)) == Err(RuleFault::Length(40)));
    let stray = PatternRow {
        source: Block {
            address: 3,
            length: 31,
        },
        destination: Block {
            address: 5,
            length: 30,
        },
        ..OPEN
    };
    let stray_bit = RuleFault::StrayBit {
        address: 3,
        length: 31,
    };
    assert!(rt; Rule::new(row(0, stray, Action::Drop)) == Err(stray_bit));
}

#[test]
fn refusals_of_a_rule_carry_what_is_at_fault(rt: HostRuntime) {
    assert!(rt; Rule::new(row(200, OPEN, Action::Drop)) == Err(RuleFault::Switch(200)));
    assert!(rt; Rule::new(row(0, with_in_port(99), Action::Drop)) == Err(RuleFault::InPort(99)));
    let without_transport = RuleFault::PortWithoutTransport {
        port: 443,
        protocol: Some(1),
    };
    assert!(rt; Rule::new(row(0, with_port(Some(1), 443), Action::Drop)) == Err(without_transport));
    assert!(rt; Rule::new(row(0, OPEN, Action::Out(44))) == Err(RuleFault::OutPort(44)));
}

#[test]
fn tags_are_1_to_4094(rt: HostRuntime) {
    assert_eq!(rt; refusal(Tag::new(0)), 29);
    assert_eq!(rt; refusal(Tag::new(1)), 0);
    assert_eq!(rt; refusal(Tag::new(4094)), 0);
    assert_eq!(rt; refusal(Tag::new(4095)), 29);
    assert!(rt; Tag::new(5000) == Err(TagFault { tag: 5000 }));
}

fn rule_of(pattern: PatternRow) -> Result<Rule, Fail> {
    Rule::new(row(0, pattern, Action::Drop)).map_err(|_| Fail::new("no rule"))
}

fn port(number: u8) -> Result<Port, Fail> {
    Port::new(number).ok_or_else(|| Fail::new("no port"))
}

const FIXED: PatternRow = PatternRow {
    in_port: Some(3),
    source: Block {
        address: 0xc0a8_0000,
        length: 16,
    },
    destination: Block {
        address: 0x0a01_0000,
        length: 16,
    },
    protocol: Some(6),
    destination_port: Some(443),
};

// Packets that differ from what a rule admits in one of its five parts.
#[test]
fn a_rule_admits_what_all_five_parts_admit(rt: HostRuntime) -> Result<(), Fail> {
    let rule = rule_of(FIXED)?;
    let packet = Header {
        source: 0xc0a8_0105,
        destination: 0x0a01_0203,
        protocol: 6,
        destination_port: 443,
    };
    assert!(rt; rule.admits(port(3)?, packet));
    assert!(rt; !rule.admits(port(4)?, packet));
    assert!(rt;
        !rule.admits(
            port(3)?,
            Header {
                source: 0xc0a9_0105,
                ..packet
            },
        )
    );
    assert!(rt;
        !rule.admits(
            port(3)?,
            Header {
                destination: 0x0a02_0001,
                ..packet
            },
        )
    );
    assert!(rt;
        !rule.admits(
            port(3)?,
            Header {
                protocol: 17,
                ..packet
            },
        )
    );
    assert!(rt;
        !rule.admits(
            port(3)?,
            Header {
                destination_port: 80,
                ..packet
            },
        )
    );
    Ok(())
}

fn clash(a: Row, b: Row) -> Result<bool, Fail> {
    let first = Rule::new(a).map_err(|_| "no first rule")?;
    let second = Rule::new(b).map_err(|_| "no second rule")?;
    Ok(first.clashes(second))
}

#[test]
fn rules_clash_by_switch_priority_and_pattern(rt: HostRuntime) -> Result<(), Fail> {
    let low = drop_to(1, 7, 0x0a00_0000, 9);
    let high = drop_to(1, 7, 0x0a80_0000, 9);
    let both = drop_to(1, 7, 0x0a00_0000, 8);
    assert!(rt; clash(low, both)?);
    assert!(rt; clash(both, high)?);
    assert!(rt; !clash(low, high)?);
    assert!(rt; !clash(low, Row { switch: 2, ..both })?);
    assert!(rt;
        !clash(
            low,
            Row {
                priority: 8,
                ..both
            },
        )?
    );
    Ok(())
}
