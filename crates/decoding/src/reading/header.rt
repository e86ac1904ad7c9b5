ghost use Rattle.std.specs.Prelude.{◌≡◌, ◌≤◌, length, IfOk};
ghost use Rattle.std.specs.Result.{result_err};
ghost use Rattle.openflow.specs.Kinds.{type_number};
ghost use Rattle.decoding.specs.Offsets.{at1, at2, at4};
ghost use Rattle.decoding.specs.Reading.{header_fault};

use crate::fault::ReadFault;
use crate::reading::{u16_at, u32_at};
use openflow::kind::{Kind, VERSION};

// What a header says.
#[derive(Clone, Copy)]
pub struct Header {
    pub kind: Kind,
    pub length: usize,
    pub xid: u32,
}

pub fn check_header(bytes: &[u8]) -> Result<Header, ReadFault>
    ensures refusal { result_err result ≡ header_fault bytes.now }
    ensures value { IfOk result (λ h. (type_number h.kind ≡ at1 bytes.now 1) × (h.length ≡ at2 bytes.now 2) × (h.xid ≡ at4 bytes.now 4)) }
    ensures within { IfOk result (λ h. (8 ≤ h.length) × (h.length ≤ length bytes.now)) }
{
    if bytes.len() < 8 {
        return Err(ReadFault::Short(bytes.len()));
    }
    if bytes[0] != VERSION {
        return Err(ReadFault::Version(bytes[0]));
    }
    let kind = Kind::try_from(bytes[1])?;
    let length = u16_at(bytes, 2);
    if length < 8 || usize::from(length) > bytes.len() {
        return Err(ReadFault::Length(length));
    }
    Ok(Header {
        kind,
        length: usize::from(length),
        xid: u32_at(bytes, 4),
    })
}
