//! The nets that still change where a moment doesn't settle.

ghost use Rattle.std.specs.Prelude.{◌≡◌, ◌++◌, if◌then◌else◌, IfOk, OnOk, codes};
ghost use Rattle.rtlsim_findings.specs.Ranges.{range_text};
ghost use Rattle.byte_streams.specs.Written.{Goes};
ghost use Rattle.rtlsim_command_faults.specs.Changing as spec;
ghost use Rattle.rtlsim_command_faults.specs.Lines.{memory_line};

use crate::lines::push_memory;
use byte_streams::{Sink, push_text};
use rtl_net::{Net, NoMemory};
use rtlsim_findings::{follows, push_range};
use rtlsim_listing::net_name;
use std::alloc::Global;

/// How many nets are named behind the first.
const MOST_OTHERS: u32 = 15;

/// Writes the line of the nets of these numbers, 16 of them at most, and answers whether memory for
/// their names sufficed; where it is refused it tells so in its place.
pub fn tell_changing<E: Sink>(alloc: Global, net: &Net, numbers: &[usize], err: &mut E) -> bool
    ensures { Goes (E.state err.old) (E.state err.new)
        (if result then spec.changing_line net.now numbers.now else memory_line) }
{
    match changing_line(alloc, net, numbers) {
        Ok(line) => {
            push_text(err, &line);
            true
        }
        Err(_) => {
            push_memory(err);
            false
        }
    }
}

/// The line of the nets of these numbers.
fn changing_line(alloc: Global, net: &Net, numbers: &[usize]) -> Result<Vec<u8>, NoMemory>
    ensures { IfOk result (λ line. line.items ≡ spec.changing_line net.now numbers.now) }
{
    let mut line = Vec::new(alloc);
    if let [first, others @ ..] = numbers {
        line.extend_from_slice(b"still changing: ")?;
        let name = net_name(alloc, net, *first)?;
        push_names(alloc, net, &name, *first, MOST_OTHERS, others, &mut line)?;
        line.extend_from_slice(b"\n")?;
    }
    Ok(line)
}

/// Appends the elements from the one of this name to the net `last`, and the nets behind them, so
/// many of them at most.
fn push_names(
    alloc: Global,
    net: &Net,
    first: &[u8],
    last: usize,
    room: u32,
    numbers: &[usize],
    line: &mut Vec<u8>,
) -> Result<(), NoMemory>
    ensures { OnOk result (line.new.items ≡ line.old.items ++ spec.names_from net.now first.now last room numbers.now) }
{
    let end = net_name(alloc, net, last)?;
    let [number, others @ ..] = numbers else {
        return push_range(first, &end, line);
    };
    if room == 0 {
        push_range(first, &end, line)?;
        return Ok(line.extend_from_slice(b" and more")?);
    }
    let next = net_name(alloc, net, *number)?;
    if follows(&end, &next) {
        return push_names(alloc, net, first, *number, room - 1, others, line);
    }
    push_before(first, &end, line)?;
    push_names(alloc, net, &next, *number, room - 1, others, line)
}

/// Appends the range from the first name to the last, and a comma behind it.
fn push_before(first: &[u8], last: &[u8], line: &mut Vec<u8>) -> Result<(), NoMemory>
    ensures { OnOk result (line.new.items ≡ line.old.items ++ range_text first.now last.now ++ codes ", ") }
{
    push_range(first, last, line)?;
    Ok(line.extend_from_slice(b", ")?)
}
