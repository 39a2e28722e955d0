//! Whether a body assigns constants alone, as the branch of a reset does.

ghost use Rattle.std.specs.Prelude.{◌≡◌, ◌&&◌};
ghost use Rattle.rtl_model.specs.basics.Lists.{is_empty};
ghost use Rattle.rtl_model.specs.bodies.Leaves.{leaves};
ghost use Rattle.rtl_net.specs.Bodies.{statement_view, statements_of};
ghost use Rattle.rtl_model.specs.bodies.Kinds as m;
ghost use Rattle.rtl_body_facts.specs.Constants.{assigns_constant};

use crate::search::{is_constant, looks_at_nothing};
use rtl_net::Statement;

/// Whether a statement assigns a constant to signals, or nothing.
fn statement_is_constant(statement: &Statement) -> bool
    ensures { result ≡ assigns_constant (statement_view statement.now) }
{
    match statement {
        Statement::Null => true,
        Statement::Assign { value, .. } => is_constant(value),
        _ => false,
    }
}

/// Whether all statements do.
pub fn assigns_constants(statements: &[Statement]) -> bool
    ensures { result ≡ m.assigns_constants (statements_of statements.now) }
{
    for statement in statements {
        if !statement_is_constant(statement) {
            return false;
        }
    }
    true
}

/// Whether they do so and look at nothing, as the branch of a reset behind an edge.
pub fn assigns_plain_constants(statements: &[Statement]) -> bool
    ensures { result ≡ is_empty (leaves (statements_of statements.now))
        && m.assigns_constants (statements_of statements.now) }
{
    looks_at_nothing(statements) && assigns_constants(statements)
}
