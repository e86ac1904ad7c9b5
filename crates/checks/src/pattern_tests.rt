use patterns::pair::Pair;
use patterns::pattern::{Pattern, overlap};
use patterns::prefix::Prefix;
use std::test::Fail;

fn prefix(address: u32, length: u8) -> Result<Prefix, Fail> {
    Prefix::new(address, length).ok_or_else(|| Fail::new("no prefix"))
}

#[test]
fn a_longer_prefix_inside_a_shorter_is_their_meet(rt: HostRuntime) -> Result<(), Fail> {
    let short = prefix(0x0a01_0000, 16)?;
    let long = prefix(0x0a01_8000, 17)?;
    assert!(rt; overlap(&long, &short));
    let meet = short.meet(&long).ok_or("no meet")?;
    assert!(rt; meet.address() == 0x0a01_8000 && meet.length() == 17);
    Ok(())
}

#[test]
fn halves_of_a_block_do_not_meet(rt: HostRuntime) -> Result<(), Fail> {
    let low = prefix(0x0a00_0000, 9)?;
    let high = prefix(0x0a80_0000, 9)?;
    assert!(rt; !overlap(&low, &high));
    assert!(rt; low.meet(&high).is_none());
    Ok(())
}

#[test]
fn the_empty_prefix_admits_all(rt: HostRuntime) -> Result<(), Fail> {
    let all = prefix(0, 0)?;
    assert!(rt; all.admits(&0));
    assert!(rt; all.admits(&0xffff_ffff));
    Ok(())
}

#[test]
fn no_prefix_beyond_its_limits(rt: HostRuntime) {
    assert!(rt; Prefix::new(0, 32).is_some());
    assert!(rt; Prefix::new(0, 33).is_none());
    assert!(rt; Prefix::new(2, 31).is_some());
    assert!(rt; Prefix::new(1, 31).is_none());
}

#[test]
fn numbers_and_pairs_overlap_by_their_halves(rt: HostRuntime) -> Result<(), Fail> {
    let tcp: Option<u8> = Some(6);
    let udp: Option<u8> = Some(17);
    let any: Option<u8> = None;
    assert!(rt; overlap(&tcp, &any));
    assert!(rt; overlap(&tcp, &tcp));
    assert!(rt; !overlap(&tcp, &udp));
    let low = prefix(0x0a00_0000, 9)?;
    let all = prefix(0, 0)?;
    assert!(rt; overlap(&Pair(tcp, low), &Pair(any, all)));
    assert!(rt; !overlap(&Pair(tcp, low), &Pair(udp, all)));
    let high = prefix(0x0a80_0000, 9)?;
    assert!(rt; !overlap(&Pair(tcp, low), &Pair(any, high)));
    Ok(())
}
