//! The lowest wanted net that each net's driver looks at.

ghost use Rattle.std.specs.Prelude.{◌≡◌, ℕ, ◌<◌, IfOk, length, slice_get};
ghost use Rattle.rtl_model.specs.bodies.Looks.{looked_nets};
ghost use Rattle.rtl_model.specs.nets.FlatNetlist.{flat_sources};
ghost use Rattle.rtl_net.specs.Bodies.{statements_of};
ghost use Rattle.rtl_net.specs.Nets.{flat};
ghost use Rattle.rtl_seen_nets.specs.Behind.{found_by, found_in, lowest_at};
ghost use Rattle.rtl_seen_nets.specs.Drivers.{looked_in, seen_nets};
ghost use Rattle.rtl_seen_nets.specs.Lowest.{lowest};

use crate::behind::{lowest_at, lowest_of_hubs, lowest_of_looks};
use rtl_looks::{Hubs, driver_looks};
use rtl_net::{Net, Process, Source, Statement};
use std::alloc::{AllocError, Global};

/// The lowest wanted net that each driver of a body looks at, by its place; past the end of the
/// list none.
fn seen_in(
    alloc: Global,
    body: &[Statement],
    wanted: &[bool],
) -> Result<Vec<Option<usize>>, AllocError>
    ensures { IfOk result (λ seen. (place : ℕ) →
        lowest_at seen.items place ≡ lowest wanted.now (looked_nets (statements_of body.now) place)) }
{
    let mut hubs = Hubs::new(alloc);
    let looks = driver_looks(body, &mut hubs)?;
    let found = lowest_of_hubs(alloc, wanted, &hubs.hubs)?;
    lowest_of_looks(alloc, wanted, &found, &looks)
}

/// The same of each process.
fn seen_in_all(
    alloc: Global,
    processes: &[Process],
    wanted: &[bool],
) -> Result<Vec<Vec<Option<usize>>>, AllocError>
    ensures { IfOk result (λ seen. (process place : ℕ) → found_in (slice_get seen.items process) place
        ≡ lowest wanted.now (looked_in (slice_get processes.now process) place)) }
{
    let mut seen = Vec::new(alloc);
    for process in processes {
        let places = seen_in(alloc, &process.body, wanted)?;
        seen.push(places)?;
    }
    Ok(seen)
}

/// What was found for the driver at a place of a process.
fn found_at(found: &[Vec<Option<usize>>], process: usize, place: usize) -> Option<usize>
    ensures { result ≡ found_in (slice_get found.now process) place }
{
    match found.get(process) {
        Some(places) => lowest_at(places, place),
        None => None,
    }
}

/// What was found for the first driver of a net.
fn seen_by(net: &Net, found: &[Vec<Option<usize>>], number: usize) -> Option<usize>
    requires { number < length net.now.types }
    ensures { result ≡ found_by found.now (flat_sources (flat net.now) number) }
{
    match net.sources(number) {
        [Source::Driven { process, place }, ..] => found_at(found, *process, *place),
        _ => None,
    }
}

/// Of each net the lowest that is wanted and that its first driver looks at. It takes time and
/// memory as `driver_looks` does for the bodies of all processes, and for each net.
pub fn seen_nets(
    alloc: Global,
    net: &Net,
    wanted: &[bool],
) -> Result<Vec<Option<usize>>, AllocError>
    ensures { IfOk result (λ seen. seen.items ≡ seen_nets net.now wanted.now) }
{
    let found = seen_in_all(alloc, net.processes(), wanted)?;
    let mut seen = Vec::new(alloc);
    for number in 0..net.nets() {
        seen.push(seen_by(net, &found, number))?;
    }
    Ok(seen)
}
