use answers::report::report;
use scripts::entry::Entry;
use scripts::lines::{Lines, cut};
use scripts::parse::parse;
use std::alloc::Global;
use std::test::Fail;

fn reads(heap: Global, line: &[u8], switch: u8, bytes: &[u8]) -> Result<(), Fail> {
    let given = parse(heap, line)?.ok_or("none")?;
    if given.switch != switch || given.bytes.as_slice() != bytes {
        return Err(Fail::new("another entry"));
    }
    Ok(())
}

#[test]
fn lines_of_a_script_are_parsed(rt: HostRuntime) -> Result<(), Fail> {
    let heap = rt.alloc();
    reads(heap, b"007 aBcD", 7, &[0xab, 0xcd])?;
    reads(heap, b"0 -", 0, &[])?;
    reads(heap, b"255 00ff", 255, &[0, 255])?;
    reads(heap, b"256 00ff", 255, &[0, 255])?;
    reads(heap, b"99999999999999999999999 09", 255, &[9])
}

#[test]
fn other_lines_are_none(rt: HostRuntime) -> Result<(), Fail> {
    let lines: [&[u8]; 14] = [
        b"", b" ", b"1", b"1 ", b" 00", b"1  00", b"1 0", b"1 000", b"1 --", b"1 00 ", b"x 00",
        b"1 0g", b"1 00-", b"\xff 00",
    ];
    for line in lines {
        assert!(rt; parse(rt.alloc(), line)?.is_none());
    }
    Ok(())
}

#[test]
fn an_entry_is_printed_in_decimal_and_hex(rt: HostRuntime) -> Result<(), Fail> {
    let heap = rt.alloc();
    let some: Entry<&[u8]> = Entry {
        switch: 13,
        bytes: &[0, 0x9a, 0xff],
    };
    assert_eq!(rt; some.to_string(heap)?.as_str(), "13 009aff");
    let none: Entry<&[u8]> = Entry {
        switch: 0,
        bytes: &[],
    };
    assert_eq!(rt; none.to_string(heap)?.as_str(), "0 -");
    Ok(())
}

fn cuts(text: &[u8], line: &[u8], more: &[u8]) -> Result<(), Fail> {
    let (l, m) = cut(text).ok_or("none")?;
    if l != line || m != more {
        return Err(Fail::new("cut elsewhere"));
    }
    Ok(())
}

#[test]
fn lines_end_at_a_line_feed_or_with_the_text(rt: HostRuntime) -> Result<(), Fail> {
    assert!(rt; cut(b"").is_none());
    cuts(b"a\nb", b"a", b"b")?;
    cuts(b"a\r\nb", b"a", b"b")?;
    cuts(b"a\r\r\n\n", b"a\r", b"\n")?;
    cuts(b"\n", b"", b"")?;
    cuts(b"\r", b"", b"")?;
    cuts(b"a\rb", b"a\rb", b"")?;
    cuts(b"ab", b"ab", b"")
}

#[test]
fn lines_come_in_order(rt: HostRuntime) -> Result<(), Fail> {
    let wanted: [&[u8]; 3] = [b"a", b"", b"b"];
    assert_eq!(rt; Lines(b"a\r\n\nb").count(), wanted.len());
    for (line, want) in Lines(b"a\r\n\nb").zip(&wanted) {
        assert_eq!(rt; line, *want);
    }
    assert!(rt; Lines(b"").next().is_none());
    Ok(())
}

#[test]
fn a_report_goes_on_after_a_bad_line(rt: HostRuntime) -> Result<(), Fail> {
    let heap = rt.alloc();
    let script = b"0 0112000800000003\nno\n\n16 -\n0 0113000800000004";
    let text = report(heap, script)?;
    let lines =
        "barrier xid=3 length=8\nbad line 2\nbad line 3\nrefused 21\nreply xid=4 length=8\n";
    assert_eq!(rt; text.as_str(), lines);
    assert_eq!(rt; report(heap, b"")?.as_str(), "");
    Ok(())
}
