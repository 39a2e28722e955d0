//! What drivers give to their nets.

ghost use Rattle.std.specs.Prelude.{◌≡◌, ◌<◌, IfOk, OnOk, length, map};
ghost use Rattle.rtl_model.specs.bodies.Types.{KeepsTypes};
ghost use Rattle.rtl_model.specs.simulation.Netlist as m;
ghost use Rattle.rtl_net.specs.Core.{core};
ghost use Rattle.rtl_process_kinds.specs.KindViews.{AreKinds, IsKind};
ghost use Rattle.rtl_calm_nets.specs.NetOrigins.{AllAreGiven, AreGiven, AreOutside, IsClocked, IsResetTest, combinational_origin, register_origin};

use crate::entries::{entries_of, starting_codes};
use crate::origins::Origin;
use crate::outside::{hubs_outside, place_is_outside};
use crate::resets::{ResetTest, reset_of};
use rtl_body_facts::ProcessKind;
use rtl_drives::Drives;
use rtl_eval::{Tree, trees};
use rtl_looks::{Hubs, driver_looks};
use rtl_net::{Net, NoMemory};
use rtl_process_kinds::{BodyCopy, copy_of};
use std::alloc::Global;

/// What the driver at a place of a combinational process gives, whose body copies this.
fn combinational_origin(follows: bool, copy: Option<BodyCopy>, place: usize) -> Origin
    ensures { result ≡ combinational_origin follows copy place }
{
    if follows {
        return Origin::Inputs;
    }
    match copy {
        Some(copy) => {
            if copy.place == place {
                return Origin::Copied(copy.copied);
            }
            Origin::Other
        }
        None => Origin::Other,
    }
}

/// What the drivers of a combinational process give.
fn combinational_origins(
    alloc: Global,
    net: &Net,
    outside: &[bool],
    number: usize,
) -> Result<Vec<Origin>, NoMemory>
    requires outside { AreOutside (core net.now) outside.now }
    requires there { number < length net.now.processes }
    requires combinational { m.IsCombinational (core net.now) number }
    ensures { IfOk result (λ origins. AreGiven (core net.now) number origins.items) }
{
    net.is_elaborated();
    let process = &net.processes()[number];
    let mut hubs = Hubs::new(alloc);
    let looks = driver_looks(&process.body, &mut hubs)?;
    let marks = hubs_outside(alloc, outside, &hubs.hubs)?;
    let copy = copy_of(&process.body);
    let mut origins = Vec::new(alloc);
    for place in 0..process.drives.len() {
        let follows = place_is_outside(outside, &marks, &looks, place);
        origins.push(combinational_origin(follows, copy, place))?;
    }
    Ok(origins)
}

/// What a driver of a clocked process gives whose reset, this net, has this entry for it.
fn register_origin(by: usize, entry: Option<u8>) -> Origin
    ensures { result ≡ register_origin by entry }
{
    match entry {
        Some(value) => Origin::Reset { by, value },
        None => Origin::Unreset,
    }
}

/// What so many drivers of a clocked process give whose reset, this net, has these entries.
fn reset_origins(
    alloc: Global,
    by: usize,
    drivers: usize,
    entries: &Drives,
) -> Result<Vec<Origin>, NoMemory>
    requires { drivers ≡ length entries.now.entries }
    ensures { IfOk result (λ origins. origins.items ≡ map (register_origin by) entries.now.entries) }
{
    let mut origins = Vec::new(alloc);
    for place in 0..drivers {
        origins.push(register_origin(by, entries.get(place)))?;
    }
    Ok(origins)
}

/// What the drivers of a clocked process give that has this reset. The values of nets are changed,
/// so that the reset holds.
fn register_origins(
    alloc: Global,
    net: &Net,
    body: &Tree<'_>,
    number: usize,
    values: &mut [u8],
    reset: Option<ResetTest>,
) -> Result<Vec<Origin>, NoMemory>
    requires body { body.now ≡ record { net = net.now; number = number } }
    requires there { number < length net.now.processes }
    requires clocked { IsClocked (core net.now) number }
    requires reset { IsResetTest (core net.now) number reset }
    requires all { length values.old ≡ length net.now.types }
    requires values { KeepsTypes net.now.types values.old }
    ensures given { IfOk result (λ origins. AreGiven (core net.now) number origins.items) }
    ensures kept { OnOk result (KeepsTypes net.now.types values.new) }
{
    net.is_elaborated();
    let process = &net.processes()[number];
    match reset {
        None => Ok(vec![in alloc; Origin::Unreset; process.drives.len()]?),
        Some(reset) => {
            values[reset.net] = reset.asked.value();
            let entries = entries_of(alloc, process, body, values)?;
            reset_origins(alloc, reset.net, process.drives.len(), &entries)
        }
    }
}

/// What the drivers of a process of this kind give.
fn given_by(
    alloc: Global,
    net: &Net,
    body: &Tree<'_>,
    kind: ProcessKind,
    outside: &[bool],
    values: &mut [u8],
    number: usize,
) -> Result<Vec<Origin>, NoMemory>
    requires body { body.now ≡ record { net = net.now; number = number } }
    requires there { number < length net.now.processes }
    requires kind { IsKind (m.process (core net.now) number) kind }
    requires outside { AreOutside (core net.now) outside.now }
    requires all { length values.old ≡ length net.now.types }
    requires values { KeepsTypes net.now.types values.old }
    ensures given { IfOk result (λ origins. AreGiven (core net.now) number origins.items) }
    ensures kept { OnOk result (KeepsTypes net.now.types values.new) }
{
    net.is_elaborated();
    match kind {
        ProcessKind::Combinational => combinational_origins(alloc, net, outside, number),
        ProcessKind::Clocked(_) => {
            let reset = reset_of(net, kind, number);
            register_origins(alloc, net, body, number, values, reset)
        }
        ProcessKind::Mixed => {
            let drivers = net.processes()[number].drives.len();
            Ok(vec![in alloc; Origin::Other; drivers]?)
        }
    }
}

/// What the drivers of each process give.
pub fn given_by_all(
    alloc: Global,
    net: &Net,
    kinds: &[ProcessKind],
    outside: &[bool],
) -> Result<Vec<Vec<Origin>>, NoMemory>
    requires kinds { AreKinds (core net.now) kinds.now }
    requires outside { AreOutside (core net.now) outside.now }
    ensures each_process { IfOk result (λ given. length given.items ≡ length net.now.processes) }
    ensures given { IfOk result (λ given. AllAreGiven (core net.now) given.items) }
{
    net.is_elaborated();
    let bodies = trees(alloc, net)?;
    let mut values = starting_codes(alloc, net)?;
    let mut all = Vec::new(alloc);
    for number in 0..kinds.len() {
        let body = &bodies[number];
        let given = given_by(
            alloc,
            net,
            body,
            kinds[number],
            outside,
            &mut values,
            number,
        )?;
        all.push(given)?;
    }
    Ok(all)
}
