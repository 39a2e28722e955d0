//! Which processes are clocked, which combinational, and which neither.

ghost use Rattle.std.specs.Prelude.{◌≡◌, ◌==◌, true, option_map};
ghost use Rattle.std.specs.List.Sorted.{IsStrictlyIncreasing};
ghost use Rattle.rtl_net.specs.Bodies.{test_view, statement_view, statements_of, branches_of};
ghost use Rattle.rtl_model.specs.bodies.Body.{step, done, if_of, no_else};
ghost use Rattle.rtl_model.specs.bodies.Reads.{events};
ghost use Rattle.rtl_model.specs.bodies.Kinds as m;
ghost use Rattle.rtl_body_facts.specs.Timing.{atom_of, edge_pair, edge_test_view, atom_reset, clocked_branch, clocking_view, kind_view};

use crate::constants::{assigns_constants, assigns_plain_constants};
use crate::rising::contains_rising;
use crate::search::{body_has_event, body_reads};
use rtl_net::{Branch, Statement, Test};
use vhdl_values::{Edge, Logic, Nine};

/// An edge of a net, as a test asks for it.
#[derive(Clone, Copy)]
pub struct EdgeTest {
    pub clock: usize,
    pub edge: Edge,
}

/// What a clocked process is clocked and reset by.
#[derive(Clone, Copy)]
pub struct Clocking {
    pub clock: usize,
    pub edge: Edge,
    /// The net of its reset, if it has one.
    pub reset: Option<usize>,
    /// Whether the branch under its edge reads its clock.
    pub reads_clock: bool,
}

/// What kind of process it is.
#[derive(Clone, Copy)]
pub enum ProcessKind {
    Combinational,
    Clocked(Clocking),
    /// Neither.
    Mixed,
}

/// What a test is that has no operands, as far as edges and resets ask.
#[derive(Clone, Copy)]
pub enum Atom {
    Rising(usize),
    Falling(usize),
    Event(usize),
    Level {
        plain: bool,
        net: usize,
        value: Nine,
    },
    Other,
}

/// The same of a test, which may be alone in a chain.
fn top_of(test: &Test) -> Atom
    ensures { result ≡ atom_of (test_view test.now) }
{
    match test {
        Test::Level { plain, net, value } => Atom::Level {
            plain: *plain,
            net: *net as usize,
            value: *value,
        },
        Test::Rising(net) => Atom::Rising(*net as usize),
        Test::Falling(net) => Atom::Falling(*net as usize),
        Test::Event(net) => Atom::Event(*net as usize),
        Test::Combined { first, rest } => {
            if rest.is_empty() {
                return top_of(first);
            }
            Atom::Other
        }
        _ => Atom::Other,
    }
}

/// The edge that a plain level makes together with an event.
fn edge_to(value: Nine) -> Option<Edge>
    ensures { result ≡ m.edge_to value }
{
    match value {
        Nine::One => Some(Edge::To1),
        Nine::Zero => Some(Edge::To0),
        _ => None,
    }
}

/// The edge that an event of one net and a level of another test, if the nets are one.
fn edge_at(event: usize, level: usize, value: Nine) -> Option<EdgeTest>
    ensures { result ≡ option_map edge_test_view (m.edge_of_net (event == level) event (m.edge_to value)) }
{
    if event != level {
        return None;
    }
    let edge = edge_to(value)?;
    Some(EdgeTest { clock: event, edge })
}

/// The edge that the two sides of `and` test.
fn edge_of_pair(left: Atom, right: Atom) -> Option<EdgeTest>
    ensures { result ≡ edge_pair left right }
{
    match (left, right) {
        (
            Atom::Event(event),
            Atom::Level {
                plain: true,
                net,
                value,
            },
        ) => edge_at(event, net, value),
        (
            Atom::Level {
                plain: true,
                net,
                value,
            },
            Atom::Event(event),
        ) => edge_at(event, net, value),
        _ => None,
    }
}

/// The edge that a test tests, if it is an edge test.
fn edge_of(test: &Test) -> Option<EdgeTest>
    ensures { result ≡ option_map edge_test_view (m.edge_test (test_view test.now)) }
{
    match test {
        Test::Rising(net) => Some(EdgeTest {
            clock: *net as usize,
            edge: Edge::Rising,
        }),
        Test::Falling(net) => Some(EdgeTest {
            clock: *net as usize,
            edge: Edge::Falling,
        }),
        Test::Combined { first, rest } => {
            if rest.is_empty() {
                return edge_of(first);
            }
            if rest.len() != 1 {
                return None;
            }
            let link = &rest[0];
            match link.operator {
                Logic::And => edge_of_pair(top_of(first), top_of(&link.operand)),
                _ => None,
            }
        }
        _ => None,
    }
}

/// The net of a reset test: an input that is tested for '1' or '0', or any net where the reading
/// is wide.
fn reset_of(wide: bool, inputs: &[usize], test: Atom) -> Option<usize>
    requires { IsStrictlyIncreasing inputs.now }
    ensures { result ≡ atom_reset wide inputs.now test }
{
    match test {
        Atom::Level { net, value, .. } => {
            let _edge = edge_to(value)?;
            if wide || contains_rising(inputs, net) {
                return Some(net);
            }
            None
        }
        _ => None,
    }
}

/// What the branch under an edge makes of a process with this reset.
fn edge_branch(branch: &Branch, reset: Option<usize>) -> Option<Clocking>
    ensures { result ≡ clocked_branch (m.edge_test (test_view branch.now.test))
        (statements_of branch.now.statements.items) reset }
{
    let test = edge_of(&branch.test)?;
    if body_has_event(&branch.statements) {
        return None;
    }
    Some(Clocking {
        clock: test.clock,
        edge: test.edge,
        reset,
        reads_clock: body_reads(&branch.statements, test.clock),
    })
}

/// What a body is clocked by that is one if with these branches and no else.
fn clocking_of_branches(wide: bool, inputs: &[usize], branches: &[Branch]) -> Option<Clocking>
    requires { IsStrictlyIncreasing inputs.now }
    ensures { result ≡ option_map clocking_view
        (m.clocking wide inputs.now (step (if_of (branches_of no_else branches.now)) done)) }
{
    if branches.len() == 1 {
        return edge_branch(&branches[0], None);
    }
    if branches.len() != 2 {
        return None;
    }
    let first = &branches[0];
    let reset = reset_of(wide, inputs, top_of(&first.test))?;
    if !assigns_constants(&first.statements) {
        return None;
    }
    edge_branch(&branches[1], Some(reset))
}

/// What a body is clocked by that is two ifs with these branches and no else, where the reading is
/// wide: the second resets what the first assigns.
fn clocking_of_two(inputs: &[usize], first: &[Branch], second: &[Branch]) -> Option<Clocking>
    requires { IsStrictlyIncreasing inputs.now }
    ensures { result ≡ option_map clocking_view (m.clocking true inputs.now
        (step (if_of (branches_of no_else first.now)) (step (if_of (branches_of no_else second.now)) done))) }
{
    if first.len() != 1 {
        return None;
    }
    if second.len() != 1 {
        return None;
    }
    let last = &second[0];
    let reset = reset_of(true, inputs, top_of(&last.test))?;
    if !assigns_plain_constants(&last.statements) {
        return None;
    }
    edge_branch(&first[0], Some(reset))
}

/// The same of the first one's branches and the second statement.
fn clocking_before(inputs: &[usize], first: &[Branch], second: &Statement) -> Option<Clocking>
    requires { IsStrictlyIncreasing inputs.now }
    ensures { result ≡ option_map clocking_view (m.clocking true inputs.now
        (step (if_of (branches_of no_else first.now)) (step (statement_view second.now) done))) }
{
    match second {
        Statement::If {
            branches,
            otherwise,
            ..
        } => match otherwise {
            Some(_) => None,
            None => clocking_of_two(inputs, first, branches),
        },
        _ => None,
    }
}

/// The same of two statements.
fn clocking_of_both(inputs: &[usize], first: &Statement, second: &Statement) -> Option<Clocking>
    requires { IsStrictlyIncreasing inputs.now }
    ensures { result ≡ option_map clocking_view (m.clocking true inputs.now
        (step (statement_view first.now) (step (statement_view second.now) done))) }
{
    match first {
        Statement::If {
            branches,
            otherwise,
            ..
        } => match otherwise {
            Some(_) => None,
            None => clocking_before(inputs, branches, second),
        },
        _ => None,
    }
}

/// What a body is clocked by, if it is one of a clocked process. Where its outer statements show
/// that it is none, it isn't walked.
pub fn clocking_of(wide: bool, inputs: &[usize], body: &[Statement]) -> Option<Clocking>
    requires { IsStrictlyIncreasing inputs.now }
    ensures { result ≡ option_map clocking_view (m.clocking wide inputs.now (statements_of body.now)) }
{
    if body.len() == 2 {
        if !wide {
            return None;
        }
        return clocking_of_both(inputs, &body[0], &body[1]);
    }
    if body.len() != 1 {
        return None;
    }
    match &body[0] {
        Statement::If {
            branches,
            otherwise,
            ..
        } => match otherwise {
            Some(_) => None,
            None => clocking_of_branches(wide, inputs, branches),
        },
        _ => None,
    }
}

/// The kind of a process with this body, where the inputs of the top rise, and the reading is wide
/// or isn't.
pub fn kind_of(wide: bool, inputs: &[usize], body: &[Statement]) -> ProcessKind
    requires { IsStrictlyIncreasing inputs.now }
    ensures { result ≡ kind_view (m.clocking wide inputs.now (statements_of body.now))
        (events (statements_of body.now)) }
{
    match clocking_of(wide, inputs, body) {
        Some(clocking) => ProcessKind::Clocked(clocking),
        None => {
            if body_has_event(body) {
                return ProcessKind::Mixed;
            }
            ProcessKind::Combinational
        }
    }
}
