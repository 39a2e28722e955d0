//! The branch at the edge.

ghost use Rattle.std.specs.Prelude.{◌≡◌, OnOk};
ghost use Rattle.rtl_model.specs.bodies.Body.{followed_by};
ghost use Rattle.rtl_net.specs.Bodies.{value_view, statement_view, statements_of};
ghost use Rattle.rtl_net.specs.Nets.{element_type};
ghost use Rattle.rtl_kept_bodies.specs.Steps.{held_by, had_by, recall_of, remember_of, recall_all, remember_all};

use crate::kept::Kept;
use rtl_net::{Expr, SignalKind, Statement, Value};
use std::alloc::{AllocError, Global};
use std::mem;

/// What a variable's nets hold.
fn held(kept: Kept) -> Value
    ensures { value_view result ≡ held_by (element_type kept.kind) kept.net kept.len }
{
    match kept.kind {
        SignalKind::Enumeration { .. } => Value::PositionOf(kept.net),
        _ => Value::Elements(Expr::Signal(kept.nets())),
    }
}

/// What a variable has.
fn had(kept: Kept) -> Value
    ensures { value_view result ≡ had_by (element_type kept.kind) kept.element kept.len }
{
    match kept.kind {
        SignalKind::Enumeration { .. } => Value::PositionIn(kept.element),
        _ => Value::Elements(Expr::Variable(kept.elements())),
    }
}

/// A variable is given what its nets hold.
fn recalled(kept: Kept) -> Statement
    ensures { statement_view result ≡ recall_of kept }
{
    Statement::Set {
        elements: kept.elements(),
        value: held(kept),
    }
}

/// The nets of a variable are given what it has.
fn remembered(kept: Kept) -> Statement
    ensures { statement_view result ≡ remember_of kept }
{
    Statement::Assign {
        places: kept.places(),
        value: had(kept),
    }
}

/// Puts what begins the branch.
fn recall(kept: &[Kept], statements: &mut Vec<Statement>) -> Result<(), AllocError>
    ensures { OnOk result (statements_of statements.new.items
        ≡ followed_by (statements_of statements.old.items) (recall_all kept.now)) }
{
    for variable in kept {
        statements.push(recalled(*variable))?;
    }
    Ok(())
}

/// Puts what ends it.
fn remember(kept: &[Kept], statements: &mut Vec<Statement>) -> Result<(), AllocError>
    ensures { OnOk result (statements_of statements.new.items
        ≡ followed_by (statements_of statements.old.items) (remember_all kept.now)) }
{
    for variable in kept {
        statements.push(remembered(*variable))?;
    }
    Ok(())
}

/// Makes a branch begin and end so.
pub(crate) fn keep_at_edge(
    alloc: Global,
    kept: &[Kept],
    statements: &mut Vec<Statement>,
) -> Result<(), AllocError>
    ensures { OnOk result (statements_of statements.new.items ≡ followed_by (recall_all kept.now)
        (followed_by (statements_of statements.old.items) (remember_all kept.now))) }
{
    let mut whole = Vec::new(alloc);
    recall(kept, &mut whole)?;
    whole.append(statements)?;
    remember(kept, &mut whole)?;
    *statements = whole;
    Ok(())
}
