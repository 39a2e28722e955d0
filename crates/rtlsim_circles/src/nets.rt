//! Circles of nets.

ghost use Rattle.std.specs.Prelude.{◌≡◌, ◌++◌, flat_map, map, IfOk, OnOk};
ghost use Rattle.rtl_net.specs.Names as names;
ghost use Rattle.rtlsim_circles.specs.Circles as spec;
ghost use Rattle.rtlsim_listing.specs.Reports.{circle_view};

use crate::processes::loop_text;
use rtl_net::{Net, NoMemory};
use rtlsim_listing::{Circle, net_name};
use std::alloc::Global;

/// How a circle is told: by its processes, each with the net on the way from the next, or by its
/// nets; and the first of these once more.
pub fn circle_text(alloc: Global, net: &Net, circle: Circle<'_>) -> Result<Vec<u8>, NoMemory>
    ensures { IfOk result (λ text. text.items ≡ spec.circle_text net.now (circle_view circle.entry)) }
{
    match circle {
        Circle::Processes(processes) => loop_text(alloc, net, processes),
        Circle::Nets(nets) => nets_text(alloc, net, nets),
    }
}

/// A circle's nets, each of which looks at the next, and the first once more.
fn nets_text(alloc: Global, net: &Net, nets: &[usize]) -> Result<Vec<u8>, NoMemory>
    ensures { IfOk result (λ text. text.items ≡ spec.nets_text net.now nets.now) }
{
    let mut text = Vec::new(alloc);
    let [first, ..] = nets else {
        return Ok(text);
    };
    push_looks(alloc, net, nets, &mut text)?;
    text.extend_from_slice(&net_name(alloc, net, *first)?)?;
    Ok(text)
}

/// Appends these nets, each of which looks at the next.
fn push_looks(alloc: Global, net: &Net, nets: &[usize], text: &mut Vec<u8>) -> Result<(), NoMemory>
    ensures { OnOk result (text.new.items ≡ text.old.items ++ flat_map (spec.look_text net.now) nets.now) }
{
    for number in nets {
        text.extend_from_slice(&net_name(alloc, net, *number)?)?;
        text.extend_from_slice(b" <- ")?;
    }
    Ok(())
}

/// The nets of a circle of nets.
pub fn nets_round(alloc: Global, net: &Net, circle: Circle<'_>) -> Result<Vec<Vec<u8>>, NoMemory>
    ensures { IfOk result (λ v. map (λ t. t.items) v.items
        ≡ spec.nets_round net.now (circle_view circle.entry)) }
{
    match circle {
        Circle::Processes(_) => Ok(Vec::new(alloc)),
        Circle::Nets(nets) => names_of(alloc, net, nets),
    }
}

/// The names of these nets.
fn names_of(alloc: Global, net: &Net, nets: &[usize]) -> Result<Vec<Vec<u8>>, NoMemory>
    ensures { IfOk result (λ v. map (λ t. t.items) v.items ≡ map (names.net_name net.now) nets.now) }
{
    let mut names = Vec::new(alloc);
    for number in nets {
        names.push(net_name(alloc, net, *number)?)?;
    }
    Ok(names)
}
