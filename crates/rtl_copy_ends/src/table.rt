//! Tables of where places lead in many steps.

ghost use Rattle.std.specs.Prelude.{◌≡◌, ◌<◌, All, IfOk, length, map, slice_index};
ghost use Rattle.rtl_copy_ends.specs.Steps.{AreAfter, IsEach};

use std::alloc::{AllocError, Global};

/// Where each of so many places leads in no step.
fn places(alloc: Global, many: usize) -> Result<Vec<usize>, AllocError>
    ensures { IfOk result (λ places. IsEach many places.items) }
{
    let mut places = Vec::new(alloc);
    for place in 0..many {
        places.push(place)?;
    }
    Ok(places)
}

/// Where the first lead, from there on as the second do.
fn joined(alloc: Global, first: &[usize], second: &[usize]) -> Result<Vec<usize>, AllocError>
    requires { All (λ place. place < length second.now) first.now }
    ensures { IfOk result (λ both. both.items ≡ map (slice_index second.now) first.now) }
{
    let mut both = Vec::new(alloc);
    for place in first {
        both.push(second[*place])?;
    }
    Ok(both)
}

/// Where each place leads in so many steps, by where it leads in one. It takes time in proportion
/// to the places times the logarithm of the steps.
pub(crate) fn after(alloc: Global, steps: &[usize], count: usize) -> Result<Vec<usize>, AllocError>
    requires { All (λ place. place < length steps.now) steps.now }
    ensures { IfOk result (λ far. AreAfter steps.now count far.items) }
{
    if count == 0 {
        return places(alloc, steps.len());
    }
    let half = after(alloc, steps, count / 2)?;
    let twice = joined(alloc, &half, &half)?;
    if count % 2 == 0 {
        return Ok(twice);
    }
    joined(alloc, &twice, steps)
}
