ghost use Rattle.std.specs.Prelude.{IfOk, string_bytes};
ghost use Rattle.answers.specs.Reports.{LineReport, Report};

use crate::answer::Answer;
use decoding::reading::read;
use scripts::lines::Lines;
use scripts::parse::parse;
use std::alloc::{AllocError, Global};

// What reading answers to a line of a script, or that the line is none, with its number. The only failure is want of memory.
pub fn line_report(heap: Global, number: u64, line: &[u8]) -> Result<String, AllocError>
    ensures { IfOk result (λ t. LineReport number line.now (string_bytes t)) }
{
    match parse(heap, line)? {
        Some(entry) => Answer(read(entry.switch, &entry.bytes)).to_string(heap),
        None => format!(in heap; "bad line {number}"),
    }
}

// The report of a whole script, a line for each of its lines. The only failure is want of memory.
pub fn report(heap: Global, script: &[u8]) -> Result<String, AllocError>
    ensures { IfOk result (λ t. Report 1 script.now (string_bytes t)) }
{
    let mut text = String::new(heap);
    for (number, line) in (1..).zip(Lines(script)) {
        writeln!(text, "{}", line_report(heap, number, line)?)?;
    }
    Ok(text)
}
