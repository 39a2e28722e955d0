//! The path from a process of the greatest level down to level 1.

ghost use Rattle.std.specs.Prelude.{◌≡◌, ◌++◌, length, position, slice_index_or, None, IfOk, OnOk};
ghost use Rattle.rtlsim_circles.specs.Paths as spec;

use rtl_check::{Judgement, NetReport};
use rtl_net::{Net, NoMemory};
use rtlsim_listing::{greatest_level, net_name, process_name};
use std::alloc::Global;

/// The path of a netlist that is judged by nets, as a line: the lowest process of the greatest
/// level, and from net to net what that comes from. Of another netlist there is none.
pub fn path_text(alloc: Global, net: &Net, judgement: &Judgement) -> Result<Vec<u8>, NoMemory>
    ensures { IfOk result (λ text. text.items ≡ spec.path_text net.now judgement.now) }
{
    match judgement {
        Judgement::ByNets(report) => path_from(alloc, net, report, highest(&report.levels)),
        _ => Ok(Vec::new(alloc)),
    }
}

/// The path from this process, if there is one.
fn path_from(
    alloc: Global,
    net: &Net,
    report: &NetReport,
    highest: Option<usize>,
) -> Result<Vec<u8>, NoMemory>
    ensures { IfOk result (λ text. text.items ≡ spec.path_from net.now report.now highest) }
{
    let mut text = Vec::new(alloc);
    let Some(process) = highest else {
        return Ok(text);
    };
    text.extend_from_slice(b"path ")?;
    text.extend_from_slice(&process_name(alloc, net, process)?)?;
    push_down(
        alloc,
        net,
        &report.looks,
        at(&report.from, process),
        &mut text,
    )?;
    text.extend_from_slice(b"\n")?;
    Ok(text)
}

/// The lowest process of the greatest level.
fn highest(levels: &[Option<u32>]) -> Option<usize>
    ensures { result ≡ spec.highest levels.now }
{
    let greatest = greatest_level(levels);
    levels.iter().position(|level| is_level(greatest, *level))
}

/// Whether a level is this one.
fn is_level(level: u32, other: Option<u32>) -> bool
    ensures { result ≡ spec.is_level level other }
{
    match other {
        Some(other) => other == level,
        None => false,
    }
}

/// What stands at a place of a list, if something does.
pub(crate) fn at<T: Copy>(list: &[Option<T>], place: usize) -> Option<T>
    ensures { result ≡ slice_index_or list.now place None }
{
    if place < list.len() {
        list[place]
    } else {
        None
    }
}

/// Appends this net, and from net to net what each looks at.
fn push_down(
    alloc: Global,
    net: &Net,
    looks: &[Option<usize>],
    from: Option<usize>,
    text: &mut Vec<u8>,
) -> Result<(), NoMemory>
    ensures { OnOk result (text.new.items
        ≡ text.old.items ++ spec.steps_text net.now looks.now (length looks.now) from) }
{
    let mut next = from;
    let mut room = looks.len();
    while let Some(number) = next {
        if room == 0 {
            return Ok(());
        }
        text.extend_from_slice(b" <- ")?;
        text.extend_from_slice(&net_name(alloc, net, number)?)?;
        next = at(looks, number);
        room -= 1;
    }
    Ok(())
}
