//! What the drivers of a process look at.

ghost use Rattle.std.specs.Prelude.{IfOk};
ghost use Rattle.rtl_net.specs.Bodies.{statements_of};
ghost use Rattle.rtl_looks.specs.Denoting.{AreInOrder, DriversLook};

use crate::changes::Changes;
use crate::env::Env;
use crate::hubs::{Hubs, Look};
use crate::statements::walk_statements;
use rtl_net::Statement;
use std::alloc::AllocError;

/// What each driver of a process with this body looks at, by its place; one past the end of the
/// list looks at nothing. Hubs are added for it, and those that are there keep what stands behind
/// them.
///
/// It takes time and memory in proportion to the elements of the body's operands and targets, times
/// how deep its branches are nested, but for the logarithm of how many targets a branch assigns.
pub fn driver_looks(body: &[Statement], hubs: &mut Hubs) -> Result<Vec<Option<Look>>, AllocError>
    requires { AreInOrder hubs.old.hubs.items }
    ensures { IfOk result (λ looks.
        DriversLook (statements_of body.now) hubs.old.hubs.items hubs.new.hubs.items looks.items) }
{
    let mut env = Env::new(hubs.alloc());
    let mut changes = Changes::new(hubs.alloc());
    walk_statements(body, None, hubs, &mut env, &mut changes)?;
    Ok(env.drivers.looks)
}
