// Plans the example update and prints its script: a heading, and a line of switch and bytes for each message.
#![tactic(auto)]

use example::planning::with_plan;
use openflow::pdu::Pdu;
use plans::plan::Plan;
use refusals::refused::Refused;
use scripts::pdu_line::PduLine;
use std::io;

// The messages in order, each as a line of its switch and its bytes.
fn script(rt: &impl Print, plan: &Plan<'_>) -> io::Result<()> {
    rt.println("switch hex")?;
    let lines = (1..=plan.sum().total).filter_map(|xid| {
        let pdu = Pdu::Message(plan.message(xid)?);
        Some(PduLine { pdu, xid })
    });
    for line in lines {
        rt.println(line)?;
    }
    Ok(())
}

fn main(rt: HostRuntime) -> io::Result<()> {
    match with_plan(|plan| script(&rt, plan)) {
        Ok(printed) => printed,
        Err(fault) => rt.println(Refused(fault)),
    }
}
