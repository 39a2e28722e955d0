//! Sequential statements (IEEE 1076-2008 clause 10).

ghost use Rattle.std.specs.Prelude.{◌≡◌};
ghost use Rattle.vhdl_tree.specs.Tree.{if_of, case_of, for_of, guarded_by, chosen_by, statements_of, conditionals_of, alternatives_of, otherwise_of};
ghost use Rattle.vhdl_tree.specs.View.{view, ident_view, option_ident_view, discrete_range_view, choices_view, statement_view};
ghost use Rattle.vhdl_tree.specs.View.{sequentials_view, option_sequentials_view, conditional_view, conditionals_view, alternative_view, alternatives_view};

use crate::expression::{Choice, DiscreteRange, Expr, Identifier, Name, Value};
use drops::take_apart;
use vhdl_lexer::TokenKind;

/// `value when condition`.
pub struct Branch {
    pub value: Value,
    pub condition: Expr,
}

impl Drop for Branch {
    fn drop(self) {
        take_apart!(self: { value, condition });
    }
}

/// A sequential statement and its label.
#[cycle(statement)]
pub struct Sequential {
    pub label: Option<Identifier>,
    pub statement: Statement,
}

impl Drop for Sequential {
    #[cycle(statement)]
    fn drop(self) {
        take_apart!(self: { label, statement });
    }
}

/// A sequential statement without its label.
#[cycle(statement)]
pub enum Statement {
    /// `null`, and the byte at which it starts.
    Null {
        at: usize,
    },
    /// `target <= value` (10.5).
    SignalAssignment {
        target: Name,
        value: Value,
    },
    /// `target := value` (10.6).
    VariableAssignment {
        target: Name,
        value: Value,
    },
    /// `target <= value when condition { else value when condition } [ else value ]` (10.5.3), or
    /// with `:=` (10.6.3). There is a branch at least.
    ConditionalAssignment {
        is_variable: bool,
        target: Name,
        branches: Vec<Branch>,
        otherwise: Option<Value>,
    },
    If(If),
    Case(Case),
    For(For),
    /// `assert` and a text that is read and dropped (10.3).
    Assert(Vec<TokenKind>),
    /// `report` and a text that is read and dropped (10.4).
    Report(Vec<TokenKind>),
}

impl Drop for Statement {
    #[cycle(statement)]
    fn drop(self) {
        take_apart!(self: Null { at } | SignalAssignment { target, value }
            | VariableAssignment { target, value }
            | ConditionalAssignment { is_variable, target, branches, otherwise }
            | If(_) | Case(_) | For(_) | Assert(_) | Report(_));
    }
}

/// An if statement, and the byte at which it starts. Each branch but the first stands after
/// `elsif`.
#[cycle(statement)]
pub struct If {
    pub at: usize,
    pub branches: Vec<Conditional>,
    pub otherwise: Option<Vec<Sequential>>,
    pub end_label: Option<Identifier>,
}

impl Drop for If {
    #[cycle(statement)]
    fn drop(self) {
        take_apart!(self: { at, branches, otherwise, end_label });
    }
}

/// A condition, and the statements that it guards.
#[cycle(statement)]
pub struct Conditional {
    pub condition: Expr,
    pub statements: Vec<Sequential>,
}

impl Drop for Conditional {
    #[cycle(statement)]
    fn drop(self) {
        take_apart!(self: { condition, statements });
    }
}

/// A case statement, and the byte at which it starts.
#[cycle(statement)]
pub struct Case {
    pub at: usize,
    pub selector: Expr,
    pub alternatives: Vec<Alternative>,
    pub end_label: Option<Identifier>,
}

impl Drop for Case {
    #[cycle(statement)]
    fn drop(self) {
        take_apart!(self: { at, selector, alternatives, end_label });
    }
}

/// Choices, and the statements that they guard.
#[cycle(statement)]
pub struct Alternative {
    pub choices: Vec<Choice>,
    pub statements: Vec<Sequential>,
}

impl Drop for Alternative {
    #[cycle(statement)]
    fn drop(self) {
        take_apart!(self: { choices, statements });
    }
}

/// A for loop, and the byte at which it starts.
#[cycle(statement)]
pub struct For {
    pub at: usize,
    pub parameter: Identifier,
    pub range: DiscreteRange,
    pub statements: Vec<Sequential>,
    pub end_label: Option<Identifier>,
}

impl Drop for For {
    #[cycle(statement)]
    fn drop(self) {
        take_apart!(self: { at, parameter, range, statements, end_label });
    }
}

impl Conditional {
    /// A condition, and the statements that it guards.
    pub fn new(condition: Expr, statements: Vec<Sequential>) -> Conditional
        ensures { conditional_view result ≡ guarded_by (view condition) (sequentials_view statements) }
    {
        Conditional {
            condition,
            statements,
        }
    }
}

impl Alternative {
    /// Choices, and the statements that they guard.
    pub fn new(choices: Vec<Choice>, statements: Vec<Sequential>) -> Alternative
        ensures { alternative_view result ≡ chosen_by (choices_view choices) (sequentials_view statements) }
    {
        Alternative {
            choices,
            statements,
        }
    }
}

impl Statement {
    /// An if statement.
    pub fn conditional(
        at: usize,
        branches: Vec<Conditional>,
        otherwise: Option<Vec<Sequential>>,
        end_label: Option<Identifier>,
    ) -> Statement
        ensures { statement_view result
            ≡ if_of at (conditionals_of (conditionals_view branches)) (otherwise_of (option_sequentials_view otherwise))
            (option_ident_view end_label) }
    {
        Statement::If(If {
            at,
            branches,
            otherwise,
            end_label,
        })
    }

    /// A case statement.
    pub fn selection(
        at: usize,
        selector: Expr,
        alternatives: Vec<Alternative>,
        end_label: Option<Identifier>,
    ) -> Statement
        ensures { statement_view result
            ≡ case_of at (view selector) (alternatives_of (alternatives_view alternatives))
            (option_ident_view end_label) }
    {
        Statement::Case(Case {
            at,
            selector,
            alternatives,
            end_label,
        })
    }

    /// A for loop.
    pub fn repetition(
        at: usize,
        parameter: Identifier,
        range: DiscreteRange,
        statements: Vec<Sequential>,
        end_label: Option<Identifier>,
    ) -> Statement
        ensures { statement_view result
            ≡ for_of at (ident_view parameter) (discrete_range_view range) (statements_of (sequentials_view statements))
            (option_ident_view end_label) }
    {
        Statement::For(For {
            at,
            parameter,
            range,
            statements,
            end_label,
        })
    }
}
