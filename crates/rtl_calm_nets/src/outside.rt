//! Which nets come from outside, and which drivers look at these alone.

ghost use Rattle.std.specs.Prelude.{◌≡◌, ◌↔◌, ◌<◌, ◌&&◌, [], false, IfOk, IsTrue, length, map, slice_index_or};
ghost use Rattle.rtl_model.specs.simulation.Calm.{IsFromOutside};
ghost use Rattle.rtl_net.specs.Core.{core};
ghost use Rattle.rtl_looks.specs.Denoting.{look_at, nets_behind};
ghost use Rattle.rtl_process_kinds.specs.KindViews.{AreKinds};
ghost use Rattle.rtl_calm_nets.specs.NetOrigins.{AreClockMarks, AreOutside, with_clock};
ghost use Rattle.rtl_calm_nets.specs.OutsideLooks.{are_outside, looks_outside, place_outside};

use rtl_body_facts::ProcessKind;
use rtl_looks::{Hub, Look};
use rtl_net::{Net, NoMemory, nets_meet_the_laws};
use rtl_process_kinds::is_driven;
use std::alloc::Global;

/// Marks the clock of a process of this kind, if it has one.
fn mark_clock(clocks: &mut [bool], kind: ProcessKind)
    ensures { clocks.new ≡ with_clock kind clocks.old }
{
    if let ProcessKind::Clocked(clocking) = kind
        && clocking.clock < clocks.len()
    {
        clocks[clocking.clock] = true;
    }
}

/// Of each net whether it is the clock of a process.
pub fn clock_marks(alloc: Global, net: &Net, kinds: &[ProcessKind]) -> Result<Vec<bool>, NoMemory>
    requires { AreKinds (core net.now) kinds.now }
    ensures { IfOk result (λ clocks. AreClockMarks (core net.now) clocks.items) }
{
    let nets = net.nets();
    let mut clocks = vec![in alloc; false; nets]?;
    for kind in kinds {
        mark_clock(&mut clocks, *kind);
    }
    Ok(clocks)
}

/// Whether this is marked, which no mark past the end is.
pub fn is_marked(marks: &[bool], number: usize) -> bool
    ensures { result ≡ slice_index_or marks.now number false }
{
    number < marks.len() && marks[number]
}

/// Whether a net comes from outside.
fn is_outside(net: &Net, clocks: &[bool], number: usize) -> bool
    requires there { number < length net.now.types }
    requires clocks { AreClockMarks (core net.now) clocks.now }
    ensures { IsTrue result ↔ IsFromOutside (core net.now) number }
{
    nets_meet_the_laws();
    net.is_elaborated();
    !is_driven(net, number) && !is_marked(clocks, number)
}

/// Of each net whether it comes from outside, where these are the clocks.
pub fn outside_nets(alloc: Global, net: &Net, clocks: &[bool]) -> Result<Vec<bool>, NoMemory>
    requires { AreClockMarks (core net.now) clocks.now }
    ensures { IfOk result (λ outside. AreOutside (core net.now) outside.items) }
{
    net.is_elaborated();
    let mut outside = Vec::new(alloc);
    for number in 0..net.nets() {
        outside.push(is_outside(net, clocks, number))?;
    }
    Ok(outside)
}

/// Whether all nets behind a look come from outside, where `marks` says it of hubs.
fn look_is_outside(outside: &[bool], marks: &[bool], look: Look) -> bool
    ensures { result ≡ looks_outside outside.now marks.now look }
{
    match look {
        Look::Net(net) => is_marked(outside, net),
        Look::Hub(hub) => hub >= marks.len() || marks[hub],
    }
}

/// Whether all nets behind the look at a place come from outside.
pub fn place_is_outside(
    outside: &[bool],
    marks: &[bool],
    looks: &[Option<Look>],
    place: usize,
) -> bool
    ensures { result ≡ place_outside outside.now marks.now (look_at looks.now place) }
{
    if place >= looks.len() {
        return true;
    }
    match looks[place] {
        Some(look) => look_is_outside(outside, marks, look),
        None => true,
    }
}

/// The same of both looks of a hub.
fn hub_is_outside(outside: &[bool], marks: &[bool], hub: Hub) -> bool
    ensures { result ≡ (looks_outside outside.now marks.now hub.left && looks_outside outside.now marks.now hub.right) }
{
    look_is_outside(outside, marks, hub.left) && look_is_outside(outside, marks, hub.right)
}

/// Of each hub whether all nets behind it come from outside.
pub fn hubs_outside(alloc: Global, outside: &[bool], hubs: &[Hub]) -> Result<Vec<bool>, NoMemory>
    ensures { IfOk result (λ marks. marks.items ≡ map (are_outside outside.now) (nets_behind [] hubs.now)) }
{
    let mut marks = Vec::new(alloc);
    for hub in hubs {
        marks.push(hub_is_outside(outside, &marks, *hub))?;
    }
    Ok(marks)
}
