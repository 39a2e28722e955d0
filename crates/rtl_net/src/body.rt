//! Elaborated bodies: sequences of sequential statements (IEEE 1076-2008, clause 10) over
//! expressions (clause 9). Loops are unrolled, and every length, index and static value is
//! computed.

use crate::indices::Indices;
use drops::take_apart;
use vhdl_numbers::{Conversion, SignedOperator};
use vhdl_values::{Cmp, Counted, Logic, Nine, Shift, Vec9};

/// An operator on two vectors (9.2; numeric_std for the arithmetic ones).
#[derive(Clone, Copy, PartialEq, Eq)]
pub enum Operator {
    Logical(Logic),
    /// `&`.
    Concatenate,
    Add,
    Subtract,
    Multiply,
    /// On numbers in two's complement.
    Signed(SignedOperator),
}

/// How rows lie in a list: how long each is, and how much further than the one before it it begins.
#[derive(Clone, Copy)]
pub struct Spacing {
    pub len: u32,
    pub step: u32,
}

/// What rows lie in: the nets of a signal's name, the elements of a variable's, or constants.
pub enum RowsOf {
    Signals(Indices),
    Variables(Indices),
    Constants(Vec<Nine>),
}

impl Drop for RowsOf {
    fn drop(self) {
        take_apart!(self: Signals(_) | Variables(_) | Constants(_));
    }
}

/// An expression of one element or of a vector of the nine values. A natural number beside a vector
/// stands here as a constant of that vector's length.
#[cycle(expression)]
pub enum Expr {
    /// The elements of a signal's name, slice or index, by their nets.
    Signal(Indices),
    /// The elements of a variable's name, slice or index, by their numbers among the process's
    /// variable elements.
    Variable(Indices),
    Constant(Vec9),
    /// `not`.
    Inverse(Box<Expr>),
    /// `(others => e)`: one element, so many times.
    Filled {
        len: u32,
        element: Box<Expr>,
    },
    /// Operators, grouped from the left: the first operand, and each further one behind its
    /// operator.
    Chain {
        first: Box<Expr>,
        rest: Vec<Link>,
    },
    /// An operator with a count beside it, as `shift_left(e, count)`.
    Counted {
        operator: Counted,
        count: u32,
        operand: Box<Expr>,
    },
    /// A shift whose count a run computes: a number in two's complement.
    Shifted {
        operator: Shift,
        count: Box<Expr>,
        operand: Box<Expr>,
    },
    /// A function of one vector, whose result is as long.
    Converted {
        conversion: Conversion,
        operand: Box<Expr>,
    },
    /// The row with the number of the index, which is one in two's complement.
    Chosen {
        index: Box<Expr>,
        spacing: Spacing,
        rows: RowsOf,
    },
}

impl Drop for Expr {
    #[cycle(expression)]
    fn drop(self) {
        take_apart!(self: Signal(_) | Variable(_) | Constant(_) | Inverse(_)
            | Filled { len, element } | Chain { first, rest }
            | Counted { operator, count, operand } | Shifted { operator, count, operand }
            | Converted { conversion, operand } | Chosen { index, spacing, rows });
    }
}

/// An operator and its right operand.
#[cycle(expression)]
pub struct Link {
    pub operator: Operator,
    pub operand: Expr,
}

impl Drop for Link {
    #[cycle(expression)]
    fn drop(self) {
        take_apart!(self: { operator, operand });
    }
}

/// What is assigned, and compared for equality: elements of the nine values, or one value of an
/// enumeration.
pub enum Value {
    Elements(Expr),
    /// A literal of an enumeration, by its position (5.2.2).
    Position(u8),
    /// A signal of an enumeration, by its net.
    PositionOf(u32),
    /// A variable of an enumeration, by the number of its element.
    PositionIn(u32),
}

impl Drop for Value {
    fn drop(self) {
        take_apart!(self: Elements(_) | Position(_) | PositionOf(_) | PositionIn(_));
    }
}

/// A condition.
#[cycle(condition)]
pub enum Test {
    /// A condition of one element (9.2.9).
    Condition(Expr),
    /// A test of static integers, which elaboration has decided.
    Decided(bool),
    /// `=` of values (9.2.3).
    Equal(Value, Value),
    /// `/=` of values (9.2.3).
    Unequal(Value, Value),
    /// `=` of a scalar signal, or of an element by its index, and a character literal. It is plain
    /// where it stands as `s = '1'`, with no side in parentheses.
    Level {
        plain: bool,
        net: u32,
        value: Nine,
    },
    /// A relation of the numbers of two vectors (numeric_std).
    Compared(Cmp, Expr, Expr),
    /// A relation of a vector's number and a natural number (numeric_std).
    ComparedTo(Cmp, Expr, u32),
    /// `rising_edge(s)`.
    Rising(u32),
    /// `falling_edge(s)`.
    Falling(u32),
    /// `s'event` (16.2.4).
    Event(u32),
    /// `not`.
    Negated(Box<Test>),
    /// Logical operators, grouped from the left: the first operand, and each further one behind its
    /// operator.
    Combined {
        first: Box<Test>,
        rest: Vec<TestLink>,
    },
}

impl Drop for Test {
    #[cycle(condition)]
    fn drop(self) {
        take_apart!(self: Condition(_) | Decided(_) | Equal(_, _) | Unequal(_, _)
            | Level { plain, net, value } | Compared(_, _, _) | ComparedTo(_, _, _) | Rising(_)
            | Falling(_) | Event(_) | Negated(_) | Combined { first, rest });
    }
}

/// A logical operator and its right operand.
#[cycle(condition)]
pub struct TestLink {
    pub operator: Logic,
    pub operand: Test,
}

impl Drop for TestLink {
    #[cycle(condition)]
    fn drop(self) {
        take_apart!(self: { operator, operand });
    }
}

/// A sequential statement. Drivers are told by their places in the process's `drives`, and elements
/// of variables by their numbers, in order of declaration and from the left.
#[cycle(statement)]
pub enum Statement {
    /// `null` (10.14).
    Null,
    /// A signal assignment (10.5): the value's elements, from the left, to these drivers.
    Assign {
        places: Indices,
        value: Value,
    },
    /// A variable assignment (10.6): the same, to these elements.
    Set {
        elements: Indices,
        value: Value,
    },
    /// A signal assignment to the row with the number of the index, which is one in two's
    /// complement. The rows lie in these drivers. `at` is the byte of the source at which it
    /// starts.
    AssignAt {
        at: u32,
        index: Expr,
        spacing: Spacing,
        places: Indices,
        value: Expr,
    },
    /// A variable assignment: the same, to these elements.
    SetAt {
        at: u32,
        index: Expr,
        spacing: Spacing,
        elements: Indices,
        value: Expr,
    },
    /// `if` (10.8): the first branch that holds is taken, else `otherwise`. `else null;` is `Some`
    /// of one `Null`. `at` is the byte of the source at which it starts.
    If {
        at: u32,
        branches: Vec<Branch>,
        otherwise: Option<Vec<Statement>>,
    },
    /// `case` (10.9). Of a case that names every value and has no `others`, the last alternative
    /// stands as `others`. `at` is the byte of the source at which it starts.
    Case {
        at: u32,
        selector: Value,
        alternatives: Vec<Alternative>,
        others: Vec<Statement>,
    },
}

impl Drop for Statement {
    #[cycle(statement)]
    fn drop(self) {
        take_apart!(self: Null | Assign { places, value } | Set { elements, value }
            | AssignAt { at, index, spacing, places, value }
            | SetAt { at, index, spacing, elements, value }
            | If { at, branches, otherwise } | Case { at, selector, alternatives, others });
    }
}

/// A condition, and the statements that it guards.
#[cycle(statement)]
pub struct Branch {
    pub test: Test,
    pub statements: Vec<Statement>,
}

impl Drop for Branch {
    #[cycle(statement)]
    fn drop(self) {
        take_apart!(self: { test, statements });
    }
}

/// Choices, and the statements that they guard.
#[cycle(statement)]
pub struct Alternative {
    pub choices: Vec<Choice>,
    pub statements: Vec<Statement>,
}

impl Drop for Alternative {
    #[cycle(statement)]
    fn drop(self) {
        take_apart!(self: { choices, statements });
    }
}

/// A choice of a case: the elements of a value, or the position of an enumeration's literal.
pub enum Choice {
    Elements(Vec9),
    Position(u8),
}

impl Drop for Choice {
    fn drop(self) {
        take_apart!(self: Elements(_) | Position(_));
    }
}
