// Plans the example update and prints it: a heading, a line for each message, and the sum.
#![tactic(auto)]

use example::planning::with_plan;
use plans::plan::Plan;
use refusals::refused::Refused;
use std::io;

fn report(rt: &impl Print, plan: &Plan<'_>) -> io::Result<()> {
    let sum = plan.sum();
    rt.println(plan.heading())?;
    rt.println("xid switch message tag port bytes")?;
    for line in (1..=sum.total).filter_map(|xid| plan.line(xid)) {
        rt.println(line)?;
    }
    rt.println(sum)
}

fn main(rt: HostRuntime) -> io::Result<()> {
    match with_plan(|plan| report(&rt, plan)) {
        Ok(printed) => printed,
        Err(fault) => rt.println(Refused(fault)),
    }
}
