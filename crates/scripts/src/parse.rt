ghost use Rattle.std.specs.Prelude.{◌≡◌, ◌<◌, length, IfOk, OnErr};
ghost use Rattle.std.specs.Option.{option_map};
ghost use Rattle.scripts.specs.Forms.{parsed, switch_value, bytes_value, pairs_value};

use crate::entry::Entry;
use crate::hex;
use crate::split::split_once;
use std::alloc::{AllocError, Global};

// Reads decimal digits, a space, and then a dash or pairs of hex digits; none for any other line.
// A line comes from outside, so it need not be text. The only failure is want of memory,
// which a line of at most two bytes never asks for.
pub fn parse(heap: Global, line: &[u8]) -> Result<Option<Entry<Vec<u8>>>, AllocError>
    ensures made { IfOk result (λ o. option_map (λ e. (e.switch, e.bytes.items)) o ≡ parsed line.now) }
    ensures refused { OnErr result (2 < length line.now) }
{
    let Some((digits, hex)) = split_once(line, b' ') else {
        return Ok(None);
    };
    let Some(switch) = switch(digits) else {
        return Ok(None);
    };
    Ok(bytes(heap, hex)?.map(|bytes| Entry { switch, bytes }))
}

// All numbers above 255 are alike: there is no such switch.
fn switch(digits: &[u8]) -> Option<u8>
    ensures { result ≡ switch_value digits.now }
{
    if digits.is_empty() {
        return None;
    }
    // A loop, since a `try_fold` is no plainer, and leaves a goal that takes a long answer.
    let mut n: u8 = 0;
    for &d in digits {
        let value = char::from(d).to_digit(10)?;
        n = n.saturating_mul(10).saturating_add(value as u8);
    }
    Some(n)
}

fn bytes(heap: Global, text: &[u8]) -> Result<Option<Vec<u8>>, AllocError>
    ensures made { IfOk result (λ o. option_map (λ v. v.items) o ≡ bytes_value text.now) }
    ensures refused { OnErr result (1 < length text.now) }
{
    match text {
        [] => Ok(None),
        [b'-'] => Ok(Some(Vec::new(heap))),
        _ => pairs(heap, text),
    }
}

#[tactic(auto, using(crate::proofs::Pairs::together_more))]
fn pairs(heap: Global, text: &[u8]) -> Result<Option<Vec<u8>>, AllocError>
    ensures made { IfOk result (λ o. option_map (λ v. v.items) o ≡ pairs_value text.now) }
    ensures refused { OnErr result (1 < length text.now) }
{
    let (pairs, rest) = text.as_chunks::<2>();
    if !rest.is_empty() {
        return Ok(None);
    }
    // A loop, since no clause of `try_collect` says that it fails where an item does.
    let mut bytes = Vec::new(heap);
    for &[high, low] in pairs {
        let Some(byte) = hex::byte(high, low) else {
            return Ok(None);
        };
        bytes.push(byte)?;
    }
    Ok(Some(bytes))
}
