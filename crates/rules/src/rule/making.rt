ghost use Rattle.std.specs.Prelude.{◌≡◌, ◌-◌, ◌<◌, ◌≤◌, IfOk, OnOk};
ghost use Rattle.std.specs.Result.{result_err};
ghost use Rattle.rules.specs.Limits.{row_fault, switch_fault, in_port_fault, length_fault, bits_fault, transport_fault, out_port_fault};

use crate::fault::RuleFault;
use crate::row::{Action, Block, Row};
use crate::rule::Rule;
use crate::switch::Switch;
use patterns::port::Port;
use patterns::prefix::Prefix;

// The protocols that have ports.
const TCP: u8 = 6;

const UDP: u8 = 17;

fn check_switch(switch: u8) -> Result<Switch, RuleFault>
    ensures { result_err result ≡ switch_fault switch }
{
    Switch::new(switch).ok_or(RuleFault::Switch(switch))
}

fn check_in_port(port: Option<u8>) -> Result<(), RuleFault>
    ensures { result_err result ≡ in_port_fault port }
{
    match port {
        Some(p) if Port::new(p).is_none() => Err(RuleFault::InPort(p)),
        _ => Ok(()),
    }
}

fn check_length(block: Block) -> Result<(), RuleFault>
    ensures value { result_err result ≡ length_fault block }
    ensures short { OnOk result (block.length ≤ 32) }
{
    if block.length > 32 {
        return Err(RuleFault::Length(block.length));
    }
    Ok(())
}

fn check_bits(block: Block) -> Result<Prefix, RuleFault>
    requires { block.length ≤ 32 }
    ensures { result_err result ≡ bits_fault block }
{
    let Block { address, length } = block;
    Prefix::new(address, length).ok_or(RuleFault::StrayBit { address, length })
}

fn check_transport(protocol: Option<u8>, port: Option<u16>) -> Result<(), RuleFault>
    ensures { result_err result ≡ transport_fault protocol port }
{
    match (protocol, port) {
        (_, None) => Ok(()),
        (Some(TCP | UDP), _) => Ok(()),
        (_, Some(p)) => Err(RuleFault::PortWithoutTransport { port: p, protocol }),
    }
}

// Not one text with the in-port's: an action has other cases, and the refusal is another.
fn check_out_port(action: Action) -> Result<(), RuleFault>
    ensures { result_err result ≡ out_port_fault action }
{
    match action {
        Action::Out(p) if Port::new(p).is_none() => Err(RuleFault::OutPort(p)),
        _ => Ok(()),
    }
}

fn check(row: Row) -> Result<(), RuleFault>
    ensures { result_err result ≡ row_fault row }
{
    check_switch(row.switch)?;
    check_in_port(row.pattern.in_port)?;
    check_length(row.pattern.source)?;
    check_length(row.pattern.destination)?;
    check_bits(row.pattern.source)?;
    check_bits(row.pattern.destination)?;
    check_transport(row.pattern.protocol, row.pattern.destination_port)?;
    check_out_port(row.action)
}

impl Rule {
    // The rule that a row makes, or the first refusal.
    pub fn new(row: Row) -> Result<Rule, RuleFault>
        ensures refusal { result_err result ≡ row_fault row }
        ensures value { IfOk result (λ rule. rule.row ≡ row) }
    {
        check(row)?;
        Ok(Rule { row })
    }

    // The row that makes the rule.
    pub fn row(self) -> Row
        ensures { result ≡ self.row }
    {
        self.row
    }

    // The switch that it is on.
    pub fn switch(self) -> Switch
        ensures { result.number ≡ self.row.switch }
    {
        let Rule { row } = self;
        Switch::new(row.switch).unwrap()
    }
}
