//! The numbers of names.

ghost use Rattle.std.specs.Prelude.{◌≡◌, IfOk};
ghost use Rattle.std.specs.List.{range_with_len};
ghost use Rattle.rtl_net.specs.Indices.{numbers};

use rtl_net::{Indices, NoMemory};
use std::alloc::Global;

/// So many numbers from the first on.
fn run_of(alloc: Global, first: u32, len: u32) -> Result<Vec<usize>, NoMemory>
    ensures { IfOk result (λ found. found.items ≡ range_with_len first len) }
{
    let mut found = Vec::new(alloc);
    for i in 0..len {
        found.push(first as usize + i as usize)?;
    }
    Ok(found)
}

/// The numbers of a name, from the left.
pub fn numbers_of(alloc: Global, indices: &Indices) -> Result<Vec<usize>, NoMemory>
    ensures { IfOk result (λ found. found.items ≡ numbers indices.now) }
{
    match indices {
        Indices::Run { first, len } => run_of(alloc, *first, *len),
        Indices::List(listed) => listed.as_slice().iter().map(|n| *n as usize).collect(alloc),
    }
}
