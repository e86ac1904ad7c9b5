ghost use Rattle.std.specs.Prelude.{◌<◌};

use crate::accepted::ACCEPTED;
use crate::samples::refusal;
use decoding::fault::ReadFault;
use decoding::reading::read;
use messages::message::Message;
use openflow::fault::WriteFault;
use openflow::frame::LONGEST;
use openflow::pdu::Pdu;
use openflow::writing::write;
use patterns::port::Port;
use plans::version::Version;
use refusals::refusal::Refusal;
use rules::switch::Switch;
use scripts::parse::parse;
use std::alloc::Global;
use std::test::Fail;

// A stamp with tag 2 at port 1, and what it is on the wire under xid 5.
const STAMP: [u8; 80] = [
    1, 14, 0, 80, 0, 0, 0, 5, 0, 0x3f, 0xff, 0xfc, 0, 1, 0, 0, 0, 0, 0, 0, 0, 0, 0, 0, 0, 0, 0xff,
    0xff, 0, 0, 0, 0, 0, 0, 0, 0, 0, 0, 0, 0, 0, 0, 0, 0, 0, 0, 0, 0, 0, 0, 0, 0, 0, 0, 0, 0, 0, 0,
    0, 0, 0, 0, 0xff, 0xff, 0xff, 0xff, 0xff, 0xff, 0xff, 0xff, 0, 0, 0, 1, 0, 8, 0, 2, 0, 0,
];

fn stamp(switch: u8) -> Result<Pdu, Fail> {
    let switch = Switch::new(switch).ok_or("no switch")?;
    let port = Port::new(1).ok_or("no port")?;
    let tag = Version::Second.tag();
    Ok(Pdu::Message(Message::Stamp { switch, port, tag }))
}

// Reads a line's bytes and writes what they are again, into a longer buffer.
fn rewritten(heap: Global, line: &str) -> Result<(), Fail> {
    let given = parse(heap, line.as_bytes())?.ok_or("no line")?;
    let bytes = given.bytes.as_slice();
    let received = read(given.switch, bytes).map_err(|_| "refused")?;
    let mut buffer = [0xaa; 100];
    let length = write(received.pdu, received.xid, &mut buffer).map_err(|_| "too short")?;
    if received.pdu.switch().number() != given.switch || length != received.length {
        return Err(Fail::new(format_args!("another message at {line}")));
    }
    if length > bytes.len() || length > LONGEST {
        return Err(Fail::new(format_args!("too long at {line}")));
    }
    if buffer[..length] != bytes[..length] || buffer[length..] != [0xaa; 100][length..] {
        return Err(Fail::new(format_args!("other bytes at {line}")));
    }
    Ok(())
}

#[test]
fn what_is_accepted_is_written_again_as_the_same_bytes(rt: HostRuntime) -> Result<(), Fail> {
    for line in ACCEPTED {
        rewritten(rt.alloc(), line)?;
    }
    Ok(())
}

#[test]
fn a_stamp_has_the_same_bytes_to_switches_0_and_15(rt: HostRuntime) -> Result<(), Fail> {
    let mut first = [0; 80];
    assert!(rt; write(stamp(0)?, 5, &mut first).is_ok());
    assert!(rt; first == STAMP);
    let mut last = [0; 80];
    assert!(rt; write(stamp(15)?, 5, &mut last).is_ok());
    assert!(rt; last == STAMP);
    Ok(())
}

#[test]
fn a_buffer_too_short_is_left_as_it_was(rt: HostRuntime) -> Result<(), Fail> {
    let mut buffer = [7; 79];
    let short = WriteFault {
        needed: 80,
        room: 79,
    };
    let outcome = write(stamp(0)?, 5, &mut buffer);
    assert_eq!(rt; refusal(outcome), 11);
    assert!(rt; outcome == Err(short));
    assert!(rt; buffer == [7; 79]);
    assert_eq!(rt; refusal(write(stamp(0)?, 5, &mut [])), 11);
    Ok(())
}

// Each of the first four has the fault of the next one, too.
#[test]
fn reading_refuses_in_order_and_names_what_is_at_fault(rt: HostRuntime) {
    assert!(rt; read(16, &[9; 7]) == Err(ReadFault::Switch(16)));
    assert!(rt; read(15, &[9; 7]) == Err(ReadFault::Short(7)));
    assert!(rt; read(15, &[9; 8]) == Err(ReadFault::Version(9)));
    assert!(rt; read(15, &[1, 9, 0, 7, 0, 0, 0, 0]) == Err(ReadFault::Type(9)));
    assert!(rt; read(15, &[1, 14, 0, 7, 0, 0, 0, 0]) == Err(ReadFault::Length(7)));
    assert!(rt; read(15, &[1, 14, 1, 8, 0, 0, 0, 0]) == Err(ReadFault::Length(264)));
    assert!(rt; read(15, &[1, 14, 0, 8, 0, 0, 0, 0]) == Err(ReadFault::NoWriting));
}

#[test]
fn the_numbers_of_the_refusals_of_reading(rt: HostRuntime) {
    assert_eq!(rt; ReadFault::Switch(16).number(), 21);
    assert_eq!(rt; ReadFault::Short(0).number(), 1);
    assert_eq!(rt; ReadFault::Version(4).number(), 2);
    assert_eq!(rt; ReadFault::Type(20).number(), 3);
    assert_eq!(rt; ReadFault::Length(7).number(), 4);
    assert_eq!(rt; ReadFault::NoWriting.number(), 5);
}

// A stamp with one byte turned.
fn turned(at: usize, byte: u8) -> [u8; 80]
    requires { at < 80 }
{
    let mut bytes = STAMP;
    bytes[at] = byte;
    bytes
}

#[test]
fn a_stamp_of_a_port_or_a_tag_beyond_the_limits_is_no_writing(rt: HostRuntime) {
    assert!(rt; read(0, &turned(13, 16)).is_ok());
    assert_eq!(rt; refusal(read(0, &turned(13, 17))), 5);
    assert_eq!(rt; refusal(read(0, &turned(13, 0))), 5);
    assert_eq!(rt; refusal(read(0, &turned(12, 1))), 5);
    assert!(rt; read(0, &turned(76, 15)).is_ok());
    assert_eq!(rt; refusal(read(0, &turned(76, 16))), 5);
    assert_eq!(rt; refusal(read(0, &turned(77, 0))), 5);
}

// The highest bit of each byte after the header, but for that of the tag's low byte, where it makes another tag.
#[test]
fn a_stamp_with_a_high_bit_turned_is_no_writing(rt: HostRuntime) {
    for (at, &byte) in STAMP.iter().enumerate().skip(8) {
        if at != 77 {
            assert_eq!(rt; refusal(read(0, &turned(at, byte ^ 0x80))), 5, "{at}");
        }
    }
    assert!(rt; read(0, &turned(77, 0x82)).is_ok());
}
