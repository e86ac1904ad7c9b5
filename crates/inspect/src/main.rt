// Reads a script from standard input, and prints what reading answers to each of its lines.
#![tactic(auto)]

use answers::report::report;
use std::io;
use std::io::Read;

fn main(rt: HostRuntime) -> io::Result<()> {
    let mut script = Vec::new(rt.alloc());
    rt.stdin().read_to_end(&mut script)?;
    let text = report(rt.alloc(), script.as_slice())?;
    rt.print(text.as_str())
}
