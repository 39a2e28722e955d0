//! Which bodies are those of registers.

ghost use Rattle.std.specs.Prelude.{◌≡◌, [], true, is_some, map, IfOk, OnOk};
ghost use Rattle.rtl_model.specs.bodies.Kinds.{clocking};
ghost use Rattle.rtl_net.specs.Bodies.{statements_of};
ghost use Rattle.rtl_variable_registers.specs.Bodies as spec;
ghost use Rattle.rtl_kept_bodies.specs.Rules.{byte_of};
ghost use Rattle.rtl_kept_bodies.specs.Steps.{SetsWithin};

use crate::constants::Known;
use crate::forms::replace_reset;
use crate::sets::never_set;
use rtl_body_facts::clocking_of;
use rtl_net::Statement;
use std::alloc::{AllocError, Global};

/// Whether a body is clocked where the language is the wider one and any net may reset it.
fn is_clocked(body: &[Statement]) -> bool
    ensures { result ≡ is_some (clocking true [] (statements_of body.now)) }
{
    clocking_of(true, &[], body).is_some()
}

/// Whether a body is a register's, of so many elements of variables. Its reset's branch is taken
/// out meanwhile.
pub(crate) fn is_register(
    alloc: Global,
    body: &mut [Statement],
    many: usize,
) -> Result<bool, AllocError>
    requires { SetsWithin many (statements_of body.old) }
    ensures same { OnOk result (statements_of body.new ≡ statements_of body.old) }
    ensures bytes { OnOk result (map byte_of body.new ≡ map byte_of body.old) }
    ensures is { IfOk result (λ b. b ≡ spec.is_register (statements_of body.old)) }
{
    let mut known = Known::new(never_set(alloc, body, many)?);
    let reset = replace_reset(alloc, body, Vec::new(alloc));
    let clocked = is_clocked(body);
    let constant = known.gives_constants(&reset);
    let _nothing = replace_reset(alloc, body, reset);
    Ok(clocked && constant)
}
