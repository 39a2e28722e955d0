//! The numbers of a name, as a list.

ghost use Rattle.std.specs.Prelude.{◌≡◌, IfOk};
ghost use Rattle.std.specs.List.{range_with_len};
ghost use Rattle.rtl_net.specs.Indices.{numbers};

use rtl_net::Indices;
use std::alloc::{AllocError, Global};

/// So many numbers from the first on.
fn run_of(alloc: Global, first: u32, len: u32) -> Result<Vec<usize>, AllocError>
    ensures { IfOk result (λ numbers. numbers.items ≡ range_with_len first len) }
{
    let mut numbers = Vec::with_capacity(alloc, len as usize)?;
    for place in 0..len {
        numbers.push(first as usize + place as usize)?;
    }
    Ok(numbers)
}

/// The numbers of a name, from the left.
pub(crate) fn numbers_of(alloc: Global, indices: &Indices) -> Result<Vec<usize>, AllocError>
    ensures { IfOk result (λ v. v.items ≡ numbers indices.now) }
{
    match indices {
        Indices::Run { first, len } => run_of(alloc, *first, *len),
        Indices::List(listed) => listed.as_slice().iter().map(|n| *n as usize).collect(alloc),
    }
}
