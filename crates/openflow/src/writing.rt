ghost use Rattle.std.specs.Prelude.{◌≡◌, ◌≤◌, true, length, is_ok, IfOk};
ghost use Rattle.openflow.specs.Carried.{carried, carried_length};
ghost use Rattle.openflow.specs.Layout.{wire};
ghost use Rattle.openflow.specs.Writing.{write_answer, written_over};

use crate::fault::WriteFault;
use crate::frame::Frame;
use crate::pdu::Pdu;

// Writes a message or a reply to the start of a buffer, and answers how many bytes that took. A buffer of `LONGEST` bytes
// is enough for any.
pub fn write(pdu: Pdu, xid: u32, buffer: &mut [u8]) -> Result<usize, WriteFault>
    ensures answer { result ≡ write_answer (wire (carried pdu) xid) buffer.old }
    ensures after { buffer.new ≡ written_over (wire (carried pdu) xid) buffer.old }
    ensures enough { 88 ≤ length buffer.old → is_ok result ≡ true }
    ensures len { IfOk result (λ n. n ≡ carried_length (carried pdu)) }
{
    let frame = Frame::of(pdu, xid);
    let bytes = frame.as_slice();
    let needed = bytes.len();
    let room = buffer.len();
    if needed > room {
        return Err(WriteFault { needed, room });
    }
    buffer[0..needed].copy_from_slice(bytes);
    Ok(needed)
}
