//! The variable elements that a body stores.

ghost use Rattle.std.specs.Prelude.{◌≡◌, map, IfOk};
ghost use Rattle.std.specs.List.{range_with_len};
ghost use Rattle.rtl_net.specs.Bodies.{statements_of};
ghost use Rattle.rtl_model.specs.bodies.Stored.{stores_element};

use crate::marks::Marks;
use crate::walk::walk_statements;
use rtl_net::Statement;
use std::alloc::{AllocError, Global};

/// Of so many variable elements, whether a body stores each. It takes time in proportion to the
/// body and to the elements, and memory for the elements; without any it doesn't look at the body.
pub fn stored_elements(
    alloc: Global,
    body: &[Statement],
    many: usize,
) -> Result<Vec<bool>, AllocError>
    ensures { IfOk result (λ v. v.items
        ≡ map (λ e. stores_element e (statements_of body.now)) (range_with_len 0 many)) }
{
    if many == 0 {
        return Ok(Vec::new(alloc));
    }
    let mut marks = Marks::new(alloc, many)?;
    let mut added = Vec::new(alloc);
    walk_statements(alloc, body, &mut marks, &mut added)?;
    marks.stored(alloc)
}
