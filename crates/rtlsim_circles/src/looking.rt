//! Whether a net that a process drives looks at another.

ghost use Rattle.std.specs.Prelude.{◌≡◌, [], map, position, IfOk};
ghost use Rattle.rtl_body_facts.specs.Reading.{is_in};
ghost use Rattle.rtl_looks.specs.Denoting.{nets_behind};
ghost use Rattle.rtl_model.specs.bodies.Looks.{looked_nets};
ghost use Rattle.rtl_net.specs.Nets.{body_of};
ghost use Rattle.rtlsim_circles.specs.LooksAt as spec;

use crate::path::at;
use rtl_looks::{Hub, Hubs, Look, driver_looks};
use rtl_net::{Driver, NoMemory, Process};
use std::alloc::Global;

/// Whether a net that a process drives looks at another.
pub(crate) fn looks_at(
    alloc: Global,
    process: &Process,
    number: usize,
    other: usize,
) -> Result<bool, NoMemory>
    ensures { IfOk result (λ looks. looks ≡ spec.looks_at process.now number other) }
{
    match place_of(&process.drives, number) {
        Some(place) => place_looks_at(alloc, process, place, other),
        None => Ok(false),
    }
}

/// The place among these drivers of the one of a net, if there is one.
fn place_of(drives: &[Driver], number: usize) -> Option<usize>
    ensures { result ≡ position (spec.is_of number) drives.now }
{
    drives.iter().position(|driver| is_of(number, *driver))
}

/// Whether a driver is one of this net.
fn is_of(number: usize, driver: Driver) -> bool
    ensures { result ≡ spec.is_of number driver }
{
    driver.net == number
}

/// Whether the driver at a place looks at a net.
fn place_looks_at(
    alloc: Global,
    process: &Process,
    place: usize,
    number: usize,
) -> Result<bool, NoMemory>
    ensures { IfOk result (λ looks. looks ≡ is_in number (looked_nets (body_of process.now) place)) }
{
    let mut hubs = Hubs::new(alloc);
    let looks = driver_looks(&process.body, &mut hubs)?;
    let marks = marks_of(alloc, number, &hubs.hubs)?;
    Ok(has_behind(number, &marks, at(&looks, place)))
}

/// Of each hub whether the net is behind it.
fn marks_of(alloc: Global, number: usize, hubs: &[Hub]) -> Result<Vec<bool>, NoMemory>
    ensures { IfOk result (λ marks. marks.items ≡ map (is_in number) (nets_behind [] hubs.now)) }
{
    let mut marks = Vec::new(alloc);
    for hub in hubs {
        marks.push(is_behind_hub(number, &marks, *hub))?;
    }
    Ok(marks)
}

/// Whether the net is behind a hub, where these are the marks of those before it.
fn is_behind_hub(number: usize, marks: &[bool], hub: Hub) -> bool
    ensures { result ≡ spec.is_behind_hub number marks.now hub }
{
    is_behind(number, marks, hub.left) || is_behind(number, marks, hub.right)
}

/// Whether the net is behind a look.
fn is_behind(number: usize, marks: &[bool], look: Look) -> bool
    ensures { result ≡ spec.is_behind number marks.now look }
{
    match look {
        Look::Net(net) => net == number,
        Look::Hub(hub) => hub < marks.len() && marks[hub],
    }
}

/// The same of what may look at nothing.
fn has_behind(number: usize, marks: &[bool], look: Option<Look>) -> bool
    ensures { result ≡ spec.has_behind number marks.now look }
{
    match look {
        Some(look) => is_behind(number, marks, look),
        None => false,
    }
}
