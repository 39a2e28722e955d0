//! Whether a body assigns a net on every syntactic path, without memory.

ghost use Rattle.std.specs.Prelude.{◌≡◌};
ghost use Rattle.std.specs.List.{list_any, list_all, range_with_len};
ghost use Rattle.rtl_net.specs.Indices.{numbers};
ghost use Rattle.rtl_net.specs.Bodies.{statement_view, statements_of};
ghost use Rattle.rtl_model.specs.bodies.Assigns as m;
ghost use Rattle.rtl_body_facts.specs.Paths as p;

use rtl_net::{Alternative, Branch, Driver, Indices, Statement};

/// Whether the driver at this place is there, and one of a net.
fn is_driver(drives: &[Driver], net: usize, place: usize) -> bool
    ensures { result ≡ p.covers drives.now net place }
{
    if place >= drives.len() {
        return false;
    }
    drives[place].net == net
}

/// Whether one of so many places from the first on is.
fn run_has(drives: &[Driver], net: usize, first: u32, len: u32) -> bool
    ensures { result ≡ list_any (p.covers drives.now net) (range_with_len first len) }
{
    for i in 0..len {
        if is_driver(drives, net, first as usize + i as usize) {
            return true;
        }
    }
    false
}

/// Whether one of these places is.
fn list_has(drives: &[Driver], net: usize, places: &[u32]) -> bool
    ensures { result ≡ list_any (p.covers drives.now net) places.now }
{
    for place in places {
        if is_driver(drives, net, *place as usize) {
            return true;
        }
    }
    false
}

/// Whether one of these places among a process's drivers is one of a driver of the net.
fn places_have(drives: &[Driver], net: usize, places: &Indices) -> bool
    ensures { result ≡ list_any (p.covers drives.now net) (numbers places.now) }
{
    match places {
        Indices::Run { first, len } => run_has(drives, net, *first, *len),
        Indices::List(listed) => list_has(drives, net, listed.as_slice()),
    }
}

/// Whether a statement of a process with these drivers assigns a net on every syntactic path. It
/// takes no memory.
#[cycle(covering)]
fn statement_covers(statement: &Statement, drives: &[Driver], net: usize) -> bool
    ensures { result ≡ m.stmt_must_assign (p.to_net drives.now net) (statement_view statement.now) }
{
    match statement {
        Statement::Null => false,
        Statement::Assign { places, .. } => places_have(drives, net, places),
        Statement::Set { .. } => false,
        Statement::AssignAt { .. } => false,
        Statement::SetAt { .. } => false,
        Statement::If {
            branches,
            otherwise,
            ..
        } => match otherwise {
            Some(last) => branches_cover(branches, drives, net) && covers(last, drives, net),
            None => false,
        },
        Statement::Case {
            alternatives,
            others,
            ..
        } => alternatives_cover(alternatives, drives, net) && covers(others, drives, net),
    }
}

/// Whether a sequence of a process with these drivers assigns a net on every syntactic path. It
/// takes no memory, and time in proportion to what the sequence assigns.
#[cycle(covering)]
pub fn covers(statements: &[Statement], drives: &[Driver], net: usize) -> bool
    ensures { result ≡ m.must_assign (p.to_net drives.now net) (statements_of statements.now) }
{
    for statement in statements {
        if statement_covers(statement, drives, net) {
            return true;
        }
    }
    false
}

/// Whether all branches of an if do.
#[cycle(covering)]
fn branches_cover(branches: &[Branch], drives: &[Driver], net: usize) -> bool
    ensures { result ≡ list_all (p.branch_covers drives.now net) branches.now }
{
    for branch in branches {
        if !covers(&branch.statements, drives, net) {
            return false;
        }
    }
    true
}

/// Whether all alternatives of a case but its last do.
#[cycle(covering)]
fn alternatives_cover(alternatives: &[Alternative], drives: &[Driver], net: usize) -> bool
    ensures { result ≡ list_all (p.alternative_covers drives.now net) alternatives.now }
{
    for alternative in alternatives {
        if !covers(&alternative.statements, drives, net) {
            return false;
        }
    }
    true
}
