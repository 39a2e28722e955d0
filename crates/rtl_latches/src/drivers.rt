//! What a body does to all nets of its process: which of them it assigns, and where it leaves an
//! assignment out.

ghost use Rattle.std.specs.Prelude.{◌≡◌, ℕ, nat_eq, IfOk};
ghost use Rattle.std.specs.HashMap.{get};
ghost use Rattle.std.specs.List.Sorted.{IsStrictlyIncreasing};
ghost use Rattle.rtl_model.specs.bodies.Assigns.{stmts_assign};
ghost use Rattle.rtl_net.specs.Bodies.{statements_of};
ghost use Rattle.rtl_body_facts.specs.Paths.{to_net};
ghost use Rattle.rtl_body_facts.specs.Reading.{is_in};
ghost use Rattle.rtl_latches.specs.Omissions as spec;
ghost use Rattle.rtl_latches.specs.Parts.{left_at};

use crate::gathering::gather;
use crate::omission::Omission;
use crate::parts::{Left, touched};
use rtl_net::{Driver, Statement};
use std::alloc::{AllocError, Global};
use std::collections::HashMap;
use std::slice;

/// Of each net the first place that leaves it out.
fn first_places(alloc: Global, left: &[Left]) -> Result<HashMap<usize, Omission>, AllocError>
    ensures { IfOk result (λ places. (n : ℕ) → get nat_eq places n ≡ left_at n left.now) }
{
    let mut places = HashMap::new(alloc);
    for one in left {
        places.entry(one.net)?.or_insert(one.omission);
    }
    Ok(places)
}

/// Of each net the first place in the text at which a body of a process with these drivers leaves
/// out its assignment, where it assigns it on some path and not on all; another net has none. It
/// takes time in proportion to the drivers and to the body times how deep it is nested, but for the
/// logarithms of sorted lists, and memory for the body's assignments.
pub fn omissions(
    alloc: Global,
    statements: &[Statement],
    drives: &[Driver],
) -> Result<HashMap<usize, Omission>, AllocError>
    ensures { IfOk result (λ places. (n : ℕ)
        → get nat_eq places n ≡ spec.omission_of (to_net drives.now n) statements.now) }
{
    let part = gather(alloc, drives, statements)?;
    first_places(alloc, &part.left)
}

/// The nets that a sequence of a process with these drivers assigns on some path, rising. It takes
/// the time and memory that `omissions` takes.
pub fn assigned_on_some_path(
    alloc: Global,
    statements: &[Statement],
    drives: &[Driver],
) -> Result<Vec<usize>, AllocError>
    ensures rise { IfOk result (λ nets. IsStrictlyIncreasing nets.items) }
    ensures are { IfOk result (λ nets. (n : ℕ) → is_in n nets.items
        ≡ stmts_assign (to_net drives.now n) (statements_of statements.now)) }
{
    let part = gather(alloc, drives, statements)?;
    touched(alloc, slice::from_ref(&part))
}
