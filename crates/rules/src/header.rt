// What rules match of a packet besides its in-port.
#[derive(Clone, Copy, PartialEq, Eq)]
pub struct Header {
    pub source: u32,
    pub destination: u32,
    pub protocol: u8,
    pub destination_port: u16,
}
