//! Sequential statements as they are analysed (IEEE 1076-2008, clause 10).

ghost use Rattle.std.specs.Prelude.{◌≡◌, IfOk, IfErr};
ghost use Rattle.vhdl_names_rules.specs.units.Statements as units;
ghost use Rattle.vhdl_names_trees.specs.views.Integers.{range_view};
ghost use Rattle.vhdl_names_trees.specs.views.Tests.{test_view};
ghost use Rattle.vhdl_names_trees.specs.views.Vectors.{value_view};
ghost use Rattle.vhdl_names_units.specs.views.Answers.{given_view, choices_view};
ghost use Rattle.vhdl_names_units.specs.views.Targets.{target_view};
ghost use Rattle.vhdl_names_units.specs.declared.sequential.If.{If};
ghost use Rattle.vhdl_names_units.specs.declared.sequential.Statement.TheVariants as statements;
ghost use Rattle.vhdl_names_units.specs.views.Sequential as views;

use crate::answers::{Choice, Given, Object, Target};
use drops::take_apart;
use vhdl_names_trees::{AnyPart, Chosen, Part, Signal, SignalPart, StaticRange, Test, Value};

/// A sequential statement.
#[cycle(statement)]
pub enum Statement {
    Null,
    /// To a signal (10.5).
    Assign {
        target: SignalPart,
        value: Given,
    },
    /// To the variable of this number (10.6), whose name starts at byte `at`.
    Set {
        at: usize,
        variable: usize,
        part: Part,
        value: Given,
    },
    /// To the part that a run chooses of a signal, whose name starts at byte `at`.
    AssignIn {
        at: usize,
        signal: Signal,
        part: Chosen,
        value: Given,
    },
    /// To that of a variable.
    SetIn {
        at: usize,
        variable: usize,
        part: Chosen,
        value: Given,
    },
    If(If),
    Case(Case),
    Loop(Loop),
}

impl Drop for Statement {
    #[cycle(statement)]
    fn drop(self) {
        take_apart!(self: Null | Assign { target, value } | Set { at, variable, part, value }
            | AssignIn { at, signal, part, value } | SetIn { at, variable, part, value }
            | If(_) | Case(_) | Loop(_));
    }
}

/// An if statement, and the byte at which it starts.
#[cycle(statement)]
pub struct If {
    pub at: usize,
    pub branches: Vec<Branch>,
    pub otherwise: Option<Vec<Statement>>,
}

impl Drop for If {
    #[cycle(statement)]
    fn drop(self) {
        take_apart!(self: { at, branches, otherwise });
    }
}

/// A condition, and the statements that it guards.
#[cycle(statement)]
pub struct Branch {
    pub condition: Test,
    pub statements: Vec<Statement>,
}

impl Drop for Branch {
    #[cycle(statement)]
    fn drop(self) {
        take_apart!(self: { condition, statements });
    }
}

/// A case statement, and the byte at which it starts. A case that names every literal of an
/// enumeration and has no `others` does its last alternative there; so does one on an integer, of
/// which `last` has the choices of that alternative.
#[cycle(statement)]
pub struct Case {
    pub at: usize,
    pub selector: Value,
    pub alternatives: Vec<Alternative>,
    pub last: Vec<Choice>,
    pub others: Vec<Statement>,
}

impl Drop for Case {
    #[cycle(statement)]
    fn drop(self) {
        take_apart!(self: { at, selector, alternatives, last, others });
    }
}

/// Choices, and the statements that they guard.
#[cycle(statement)]
pub struct Alternative {
    pub choices: Vec<Choice>,
    pub statements: Vec<Statement>,
}

impl Drop for Alternative {
    #[cycle(statement)]
    fn drop(self) {
        take_apart!(self: { choices, statements });
    }
}

/// A for loop, and the byte at which it starts. Its parameter is the loop parameter with as many
/// others round it as it has loops.
#[cycle(statement)]
pub struct Loop {
    pub at: usize,
    pub range: StaticRange,
    pub statements: Vec<Statement>,
}

impl Drop for Loop {
    #[cycle(statement)]
    fn drop(self) {
        take_apart!(self: { at, range, statements });
    }
}

impl Branch {
    /// A condition, and the statements that it guards.
    pub fn new(condition: Test, statements: Vec<Statement>) -> Branch
        ensures { views.branch_view result ≡ views.guarded_by (test_view condition) (views.statements_view statements) }
    {
        Branch {
            condition,
            statements,
        }
    }
}

impl Branch {
    /// The condition, and the statements that it guards.
    pub fn into_parts(self) -> (Test, Vec<Statement>)
        ensures condition { result.0 ≡ self.condition }
        ensures statements { result.1 ≡ self.statements }
    {
        let Branch {
            condition,
            statements,
        } = self;
        (condition, statements)
    }
}

impl Alternative {
    /// Choices, and the statements that they guard.
    pub fn new(choices: Vec<Choice>, statements: Vec<Statement>) -> Alternative
        ensures { views.alternative_view result ≡
            views.chosen_by (choices_view choices) (views.statements_view statements) }
    {
        Alternative {
            choices,
            statements,
        }
    }
}

impl Statement {
    /// The if that it is, or else the statement as it was.
    pub fn into_if(self) -> Result<If, Statement>
        ensures conditional { IfOk result (λ x. self ≡ statements.If x) }
        ensures same { IfErr result (λ y. y ≡ self) }
        ensures other { IfErr result (λ y. (x : If) → self ≡ statements.If x → ⊥) }
    {
        match self {
            Statement::If(x) => Ok(x),
            statement => Err(statement),
        }
    }

    /// What gives a value to a target.
    pub fn assigned(target: Target, value: Given) -> Statement
        ensures { views.statement_view result ≡ (target_view target).assigned (given_view value) }
    {
        let Target {
            at,
            object,
            part,
            ..
        } = target;
        match (object, part) {
            (Object::Signal(signal), AnyPart::Static(part)) => Statement::Assign {
                target: SignalPart { at, signal, part },
                value,
            },
            (Object::Signal(signal), AnyPart::Chosen(part)) => Statement::AssignIn {
                at,
                signal,
                part,
                value,
            },
            (Object::Variable(variable), AnyPart::Static(part)) => Statement::Set {
                at,
                variable,
                part,
                value,
            },
            (Object::Variable(variable), AnyPart::Chosen(part)) => Statement::SetIn {
                at,
                variable,
                part,
                value,
            },
        }
    }

    /// An if statement, which starts at byte `at`.
    pub fn conditional(
        at: usize,
        branches: Vec<Branch>,
        otherwise: Option<Vec<Statement>>,
    ) -> Statement
        ensures { views.statement_view result
            ≡ units.if_of at (views.branches_of (views.branches_view branches)
            (views.last_of (views.option_statements_view otherwise))) }
    {
        Statement::If(If {
            at,
            branches,
            otherwise,
        })
    }

    /// A case statement, which starts at byte `at`.
    pub fn selection(
        at: usize,
        selector: Value,
        alternatives: Vec<Alternative>,
        last: Vec<Choice>,
        others: Vec<Statement>,
    ) -> Statement
        ensures { views.statement_view result
            ≡ units.case_of at (value_view selector)
            (views.alternatives_of (views.alternatives_view alternatives)
            (views.last_alternative (choices_view last) (views.statements_of (views.statements_view others)))) }
    {
        Statement::Case(Case {
            at,
            selector,
            alternatives,
            last,
            others,
        })
    }

    /// A for loop, which starts at byte `at`.
    pub fn repetition(at: usize, range: StaticRange, statements: Vec<Statement>) -> Statement
        ensures { views.statement_view result ≡
            units.for_of at (range_view range) (views.statements_of (views.statements_view statements)) }
    {
        Statement::Loop(Loop {
            at,
            range,
            statements,
        })
    }
}

impl Alternative {
    /// The statements that the choices guard.
    pub fn into_statements(self) -> Vec<Statement>
        ensures { result ≡ self.statements }
    {
        let Alternative {
            choices: _,
            statements,
        } = self;
        statements
    }
}
