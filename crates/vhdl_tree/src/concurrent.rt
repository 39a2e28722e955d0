//! Concurrent statements (IEEE 1076-2008 clause 11).

ghost use Rattle.std.specs.Prelude.{◌≡◌};
ghost use Rattle.vhdl_tree.specs.Tree.{generated, concurrents_of};
ghost use Rattle.vhdl_tree.specs.View.{ident_view, option_ident_view, scheme_view, concurrent_view, concurrents_view};

use crate::expression::{DiscreteRange, Expr, Identifier, Name, Value};
use crate::instance::Instance;
use crate::process::{Process, SelectedAssignment};
use crate::sequential::Branch;
use drops::take_apart;
use vhdl_lexer::TokenKind;

/// A concurrent assignment. The first branch whose condition holds gives the value, else the
/// last value, if there is one. A plain assignment has no branch.
pub struct Assignment {
    pub label: Option<Identifier>,
    pub target: Name,
    pub branches: Vec<Branch>,
    pub otherwise: Option<Value>,
}

impl Drop for Assignment {
    fn drop(self) {
        take_apart!(self: { label, target, branches, otherwise });
    }
}

/// A concurrent assertion (11.5): `assert` and a text that is read and dropped.
pub struct Assertion {
    pub label: Option<Identifier>,
    pub text: Vec<TokenKind>,
}

impl Drop for Assertion {
    fn drop(self) {
        take_apart!(self: { label, text });
    }
}

/// A concurrent statement and its label. An assignment and an assertion keep their own.
#[cycle(concurrent)]
pub enum Concurrent {
    Assignment(Assignment),
    Selected {
        label: Option<Identifier>,
        assignment: SelectedAssignment,
    },
    Process {
        label: Option<Identifier>,
        process: Process,
    },
    Instance {
        label: Identifier,
        instance: Instance,
    },
    Generate(Generate),
    Assert(Assertion),
}

impl Drop for Concurrent {
    #[cycle(concurrent)]
    fn drop(self) {
        take_apart!(self: Assignment(_) | Selected { label, assignment }
            | Process { label, process } | Instance { label, instance } | Generate(_)
            | Assert(_));
    }
}

/// What a generate statement goes by: a parameter over a range, or a condition.
pub enum Scheme {
    For {
        parameter: Identifier,
        range: DiscreteRange,
    },
    If {
        condition: Expr,
    },
}

impl Drop for Scheme {
    fn drop(self) {
        take_apart!(self: For { parameter, range } | If { condition });
    }
}

/// A generate statement, and the byte at which its scheme starts. `begin_word` says whether
/// `begin` stands before its statements.
#[cycle(concurrent)]
pub struct Generate {
    pub label: Identifier,
    pub at: usize,
    pub scheme: Scheme,
    pub begin_word: bool,
    pub statements: Vec<Concurrent>,
    pub end_label: Option<Identifier>,
}

impl Drop for Generate {
    #[cycle(concurrent)]
    fn drop(self) {
        take_apart!(self: { label, at, scheme, begin_word, statements, end_label });
    }
}

impl Concurrent {
    /// A generate statement.
    pub fn generated(
        label: Identifier,
        at: usize,
        scheme: Scheme,
        begin_word: bool,
        statements: Vec<Concurrent>,
        end_label: Option<Identifier>,
    ) -> Concurrent
        ensures { concurrent_view result
            ≡ generated (ident_view label) at (scheme_view scheme) begin_word
            (concurrents_of (concurrents_view statements)) (option_ident_view end_label) }
    {
        Concurrent::Generate(Generate {
            label,
            at,
            scheme,
            begin_word,
            statements,
            end_label,
        })
    }
}
