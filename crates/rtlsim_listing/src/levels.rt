//! The checker's yes: the bound, and the levels of processes.

ghost use Rattle.std.specs.Prelude.{◌≡◌, ◌<◌, length, slice_index_or, None, IfOk};
ghost use Rattle.byte_streams.specs.Written.{Goes};
ghost use Rattle.rtlsim_listing.specs.NetText.{lines};
ghost use Rattle.rtlsim_listing.specs.CheckText as spec;
ghost use Rattle.rtlsim_listing.specs.CheckText.{shown_view};
ghost use Rattle.rtlsim_listing.specs.Printing.{Prints};

use crate::names::{net_name, process_name};
use byte_streams::{Sink, push_number, push_text};
use rtl_net::{Net, NoMemory};
use std::alloc::Global;

/// What is printed of a report.
#[derive(Clone, Copy)]
pub(crate) struct Shown<'a> {
    /// Whether levels come from nets, in place of processes.
    pub(crate) by_nets: bool,
    pub(crate) levels: &'a [Option<u32>],
    pub(crate) from: &'a [Option<usize>],
    pub(crate) bound: u32,
}

/// The greatest of the levels that there are, 0 without any.
pub fn greatest_level(levels: &[Option<u32>]) -> u32
    ensures { result ≡ spec.greatest_level levels.now }
{
    let mut greatest = 0;
    for level in levels {
        greatest = greatest.max(level.unwrap_or(0));
    }
    greatest
}

/// `yes`, the greatest level and the bound.
pub(crate) fn push_bounds<W: Sink>(levels: u32, bound: u32, out: &mut W)
    ensures { Goes (W.state out.old) (W.state out.new) (spec.bounds_text levels bound) }
{
    push_text(out, b"yes\nlevels ");
    push_number(out, levels as u64);
    push_text(out, b"\nbound ");
    push_number(out, bound as u64);
    push_text(out, b"\n");
}

/// The lines of all processes that have a level.
pub(crate) fn push_levels<W: Sink>(
    alloc: Global,
    net: &Net,
    shown: &Shown<'_>,
    out: &mut W,
) -> Result<(), NoMemory>
    ensures { Prints result (W.state out.old) (W.state out.new)
        (lines (spec.level_line net.now (shown_view shown.now)) (length shown.now.levels.now)) }
{
    for number in 0..shown.levels.len() {
        push_level(alloc, net, shown, number, out)?;
    }
    Ok(())
}

/// The line of a process, if it has a level.
fn push_level<W: Sink>(
    alloc: Global,
    net: &Net,
    shown: &Shown<'_>,
    number: usize,
    out: &mut W,
) -> Result<(), NoMemory>
    requires there { number < length shown.now.levels.now }
    ensures { Prints result (W.state out.old) (W.state out.new)
        (spec.level_line net.now (shown_view shown.now) number) }
{
    match shown.levels[number] {
        Some(level) => {
            let behind = from_text(alloc, net, shown.by_nets, from_at(shown.from, number))?;
            push_level_of(alloc, net, number, level, &behind, out)
        }
        None => Ok(()),
    }
}

/// What a process's level comes from, if it is said.
fn from_at(from: &[Option<usize>], number: usize) -> Option<usize>
    ensures { result ≡ slice_index_or from.now number None }
{
    if number < from.len() {
        from[number]
    } else {
        None
    }
}

/// The line of a process of this level.
fn push_level_of<W: Sink>(
    alloc: Global,
    net: &Net,
    number: usize,
    level: u32,
    behind: &[u8],
    out: &mut W,
) -> Result<(), NoMemory>
    ensures { Prints result (W.state out.old) (W.state out.new) (spec.level_of net.now number level behind.now) }
{
    let name = process_name(alloc, net, number)?;
    push_text(out, b"level ");
    push_number(out, level as u64);
    push_text(out, b" ");
    push_text(out, &name);
    push_text(out, behind);
    push_text(out, b"\n");
    Ok(())
}

/// `from` and the name of a net or of a process, or nothing.
fn from_text(
    alloc: Global,
    net: &Net,
    by_nets: bool,
    from: Option<usize>,
) -> Result<Vec<u8>, NoMemory>
    ensures { IfOk result (λ text. text.items ≡ spec.from_text net.now by_nets from) }
{
    let mut text = Vec::new(alloc);
    if let Some(number) = from {
        text.extend_from_slice(b" from ")?;
        text.extend_from_slice(&origin_name(alloc, net, by_nets, number)?)?;
    }
    Ok(text)
}

/// The name of a net or of a process.
fn origin_name(alloc: Global, net: &Net, by_nets: bool, number: usize) -> Result<Vec<u8>, NoMemory>
    ensures { IfOk result (λ name. name.items ≡ spec.origin_name net.now by_nets number) }
{
    if by_nets {
        net_name(alloc, net, number)
    } else {
        process_name(alloc, net, number)
    }
}
