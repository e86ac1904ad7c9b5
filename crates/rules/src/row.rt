// What a rule does with the packets that it admits; the out port is a plain number, which need not be a port.
// Not an `Option`: to drop is an action, which rules are written for, and not the lack of one.
#[derive(Clone, Copy, PartialEq, Eq)]
pub enum Action {
    Drop,
    Out(u8),
}

// An address block as written, address/length; the numbers need not make a prefix.
#[derive(Clone, Copy, PartialEq, Eq)]
pub struct Block {
    pub address: u32,
    pub length: u8,
}

// The numbers of a rule pattern, which need not make one. Where a number is `None`, all are admitted.
#[derive(Clone, Copy, PartialEq, Eq)]
pub struct PatternRow {
    pub in_port: Option<u8>,
    pub source: Block,
    pub destination: Block,
    pub protocol: Option<u8>,
    pub destination_port: Option<u16>,
}

// A rule as it lies in a list or a table: its plain numbers, which need not make a rule.
#[derive(Clone, Copy, PartialEq, Eq)]
pub struct Row {
    pub switch: u8,
    pub priority: u16,
    pub pattern: PatternRow,
    pub action: Action,
}
