//! The lowest wanted net behind each hub, and behind looks.

ghost use Rattle.std.specs.Prelude.{◌≡◌, [], IfOk, map};
ghost use Rattle.rtl_looks.specs.Denoting.{nets_behind};
ghost use Rattle.rtl_seen_nets.specs.Behind as spec;
ghost use Rattle.rtl_seen_nets.specs.Lowest.{lowest};

use crate::lowest::{if_wanted, lower};
use rtl_looks::{Hub, Look};
use std::alloc::{AllocError, Global};

/// What was found at a place.
pub(crate) fn lowest_at(found: &[Option<usize>], place: usize) -> Option<usize>
    ensures { result ≡ spec.lowest_at found.now place }
{
    if place < found.len() {
        found[place]
    } else {
        None
    }
}

/// The lowest wanted net behind a look, by what was found behind hubs.
fn lowest_behind(wanted: &[bool], found: &[Option<usize>], look: Look) -> Option<usize>
    ensures { result ≡ spec.lowest_behind wanted.now found.now look }
{
    match look {
        Look::Net(net) => if_wanted(wanted, net),
        Look::Hub(hub) => lowest_at(found, hub),
    }
}

/// The lowest wanted net behind each hub.
pub(crate) fn lowest_of_hubs(
    alloc: Global,
    wanted: &[bool],
    hubs: &[Hub],
) -> Result<Vec<Option<usize>>, AllocError>
    ensures { IfOk result (λ found. found.items ≡ map (lowest wanted.now) (nets_behind [] hubs.now)) }
{
    let mut found = Vec::new(alloc);
    for hub in hubs {
        let left = lowest_behind(wanted, &found, hub.left);
        let right = lowest_behind(wanted, &found, hub.right);
        found.push(lower(left, right))?;
    }
    Ok(found)
}

/// The lowest wanted net behind a look, if there is one.
fn lowest_seen(wanted: &[bool], found: &[Option<usize>], look: Option<Look>) -> Option<usize>
    ensures { result ≡ spec.lowest_seen wanted.now found.now look }
{
    match look {
        Some(look) => lowest_behind(wanted, found, look),
        None => None,
    }
}

/// The same of all these looks.
pub(crate) fn lowest_of_looks(
    alloc: Global,
    wanted: &[bool],
    found: &[Option<usize>],
    looks: &[Option<Look>],
) -> Result<Vec<Option<usize>>, AllocError>
    ensures { IfOk result (λ seen. seen.items ≡ map (spec.lowest_seen wanted.now found.now) looks.now) }
{
    let mut seen = Vec::new(alloc);
    for look in looks {
        seen.push(lowest_seen(wanted, found, *look))?;
    }
    Ok(seen)
}
