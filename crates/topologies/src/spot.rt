// A port of a switch, as plain numbers, which need not be one of a topology's. Spots are in order by switch, then port.
#[derive(Clone, Copy, PartialEq, Eq, PartialOrd, Ord)]
pub struct Spot {
    pub switch: u8,
    pub port: u8,
}

// What a port is used for: nothing, a host, or a link with the port named.
#[derive(Clone, Copy, PartialEq, Eq)]
pub enum PortUse {
    Unused,
    Edge,
    Linked(Spot),
}
