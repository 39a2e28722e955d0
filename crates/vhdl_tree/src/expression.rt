//! Names and expressions (IEEE 1076-2008 clauses 8 and 9), and what is made of them.

ghost use Rattle.std.specs.Prelude.{◌≡◌, IfOk};
ghost use Rattle.vhdl_tree.specs.Tree.{parens, negation, absolute, power, signed, chained, aggregate, qualified, arguments, sliced, exprs_of, elements_of, element_by};
ghost use Rattle.vhdl_tree.specs.View.{ident_view, view, suffix_view, exprs_view, pair_view, pairs_view, choices_view, element_view, elements_view};

use crate::operator::{Direction, Operator, Sign};
use drops::take_apart;
use std::alloc::{AllocError, Global};

/// An identifier in small letters, and the byte at which it starts.
pub struct Identifier {
    pub at: usize,
    pub text: Vec<u8>,
}

impl Drop for Identifier {
    fn drop(self) {
        take_apart!(self: { at, text });
    }
}

/// The bytes of a literal as they stand in the source, and the byte at which it starts.
pub struct Literal {
    pub at: usize,
    pub text: Vec<u8>,
}

impl Drop for Literal {
    fn drop(self) {
        take_apart!(self: { at, text });
    }
}

/// An expression. Offsets are the bytes at which an operator, a sign, a literal or an opening
/// parenthesis starts.
#[cycle(tree)]
pub enum Expr {
    Integer(Literal),
    /// A character literal, and the character between its ticks.
    Character {
        at: usize,
        code: u8,
    },
    StringLiteral(Literal),
    BitString(Literal),
    Name(Name),
    Parens {
        at: usize,
        inner: Box<Expr>,
    },
    Not {
        at: usize,
        operand: Box<Expr>,
    },
    /// `abs operand` (9.2.8).
    Abs {
        at: usize,
        operand: Box<Expr>,
    },
    Power(Box<Power>),
    Signed {
        sign: Sign,
        at: usize,
        operand: Box<Expr>,
    },
    Chain(Box<Chain>),
    /// `( element { , element } )` (9.3.3). A lone element without choices is an expression in
    /// parentheses instead.
    Aggregate {
        at: usize,
        elements: Vec<Element>,
    },
    /// `mark ' ( element { , element } )` (9.3.5), and the byte at which the parenthesis starts.
    Qualified {
        mark: Identifier,
        at: usize,
        elements: Vec<Element>,
    },
}

impl Drop for Expr {
    #[cycle(tree)]
    fn drop(self) {
        take_apart!(self: Integer(_) | Character { at, code } | StringLiteral(_) | BitString(_)
            | Name(_) | Parens { at, inner } | Not { at, operand } | Abs { at, operand }
            | Power(_) | Signed { sign, at, operand } | Chain(_) | Aggregate { at, elements }
            | Qualified { mark, at, elements });
    }
}

/// `base ** exponent` (9.2.8), and the byte at which the first star starts.
#[cycle(tree)]
pub struct Power {
    pub base: Expr,
    pub at: usize,
    pub exponent: Expr,
}

impl Drop for Power {
    #[cycle(tree)]
    fn drop(self) {
        take_apart!(self: { base, at, exponent });
    }
}

/// An element of an aggregate (9.3.3): its value, behind the choices that say where it stands.
#[cycle(tree)]
pub struct Element {
    pub choices: Vec<Choice>,
    pub value: Expr,
}

impl Drop for Element {
    #[cycle(tree)]
    fn drop(self) {
        take_apart!(self: { choices, value });
    }
}

/// A choice of an alternative or of an element: an expression, a range, or `others` with the byte
/// at which it starts.
#[cycle(tree)]
pub enum Choice {
    Expr(Expr),
    Range(Range),
    Others { at: usize },
}

impl Drop for Choice {
    #[cycle(tree)]
    fn drop(self) {
        take_apart!(self: Expr(_) | Range(_) | Others { at });
    }
}

/// Operators of one level, grouped from the left: the first operand, and one link or more.
#[cycle(tree)]
pub struct Chain {
    pub first: Expr,
    pub second: Link,
    pub rest: Vec<Link>,
}

impl Drop for Chain {
    #[cycle(tree)]
    fn drop(self) {
        take_apart!(self: { first, second, rest });
    }
}

/// An operator and its right operand.
#[cycle(tree)]
pub struct Link {
    pub operator: Operator,
    pub at: usize,
    pub operand: Expr,
}

impl Drop for Link {
    #[cycle(tree)]
    fn drop(self) {
        take_apart!(self: { operator, at, operand });
    }
}

/// A name: an identifier, what stands in parentheses after it, and an attribute.
#[cycle(tree)]
pub struct Name {
    pub identifier: Identifier,
    pub suffix: Suffix,
    pub attribute: Option<Attribute>,
}

impl Drop for Name {
    #[cycle(tree)]
    fn drop(self) {
        take_apart!(self: { identifier, suffix, attribute });
    }
}

/// An attribute of a name (8.6): its own name, or `range`, a reserved word, with the byte at which
/// it starts.
pub enum Attribute {
    Name(Identifier),
    Range { at: usize },
}

impl Drop for Attribute {
    fn drop(self) {
        take_apart!(self: Name(_) | Range { at });
    }
}

/// What stands in parentheses after a name's identifier.
#[cycle(tree)]
pub enum Suffix {
    Plain,
    Arguments(Vec<Expr>),
    Range(Box<Range>),
}

impl Drop for Suffix {
    #[cycle(tree)]
    fn drop(self) {
        take_apart!(self: Plain | Arguments(_) | Range(_));
    }
}

/// A range and its direction.
#[cycle(tree)]
pub struct Range {
    pub left: Expr,
    pub direction: Direction,
    pub right: Expr,
}

impl Drop for Range {
    #[cycle(tree)]
    fn drop(self) {
        take_apart!(self: { left, direction, right });
    }
}

/// What is assigned or a default: an expression, or `(others => e)` with the byte at which its
/// parenthesis starts.
pub enum Value {
    Expr(Expr),
    Others { at: usize, element: Expr },
}

impl Drop for Value {
    fn drop(self) {
        take_apart!(self: Expr(_) | Others { at, element });
    }
}

/// A range where a name may stand for one (5.2.1, 5.3.2): its bounds, or the name.
pub enum DiscreteRange {
    Bounds(Range),
    Name(Name),
}

impl Drop for DiscreteRange {
    fn drop(self) {
        take_apart!(self: Bounds(_) | Name(_));
    }
}

/// What is associated: an expression, or `open` with the byte at which it starts.
pub enum Actual {
    Expr(Expr),
    Open { at: usize },
}

impl Drop for Actual {
    fn drop(self) {
        take_apart!(self: Expr(_) | Open { at });
    }
}

/// An actual for a formal, or for the formal of its position.
pub struct Association {
    pub formal: Option<Identifier>,
    pub actual: Actual,
}

impl Drop for Association {
    fn drop(self) {
        take_apart!(self: { formal, actual });
    }
}

impl Expr {
    /// `( inner )`, whose parenthesis starts at byte `at`. It takes the memory of a box.
    pub fn in_parens(alloc: Global, at: usize, inner: Expr) -> Result<Expr, AllocError>
        ensures { IfOk result (λ e. view e ≡ parens at (view inner)) }
    {
        Ok(Expr::Parens {
            at,
            inner: Box::new(alloc, inner)?,
        })
    }

    /// `not operand`, whose `not` starts at byte `at`. It takes the memory of a box.
    pub fn negated(alloc: Global, at: usize, operand: Expr) -> Result<Expr, AllocError>
        ensures { IfOk result (λ e. view e ≡ negation at (view operand)) }
    {
        Ok(Expr::Not {
            at,
            operand: Box::new(alloc, operand)?,
        })
    }

    /// `abs operand`, whose `abs` starts at byte `at`. It takes the memory of a box.
    pub fn magnitude(alloc: Global, at: usize, operand: Expr) -> Result<Expr, AllocError>
        ensures { IfOk result (λ e. view e ≡ absolute at (view operand)) }
    {
        Ok(Expr::Abs {
            at,
            operand: Box::new(alloc, operand)?,
        })
    }

    /// `base ** exponent`, whose first star starts at byte `at`. It takes the memory of a box.
    pub fn power(alloc: Global, base: Expr, at: usize, exponent: Expr) -> Result<Expr, AllocError>
        ensures { IfOk result (λ e. view e ≡ power (view base) at (view exponent)) }
    {
        let power = Power { base, at, exponent };
        Ok(Expr::Power(Box::new(alloc, power)?))
    }

    /// `( element { , element } )`, whose parenthesis starts at byte `at`.
    pub fn aggregate(at: usize, elements: Vec<Element>) -> Expr
        ensures { view result ≡ aggregate at (elements_of (elements_view elements)) }
    {
        Expr::Aggregate { at, elements }
    }

    /// `mark ' ( element { , element } )`, whose parenthesis starts at byte `at`.
    pub fn qualified(mark: Identifier, at: usize, elements: Vec<Element>) -> Expr
        ensures { view result ≡ qualified (ident_view mark) at (elements_of (elements_view elements)) }
    {
        Expr::Qualified { mark, at, elements }
    }

    /// An operand after a sign, which starts at byte `at`. It takes the memory of a box.
    pub fn with_sign(
        alloc: Global,
        sign: Sign,
        at: usize,
        operand: Expr,
    ) -> Result<Expr, AllocError>
        ensures { IfOk result (λ e. view e ≡ signed sign at (view operand)) }
    {
        Ok(Expr::Signed {
            sign,
            at,
            operand: Box::new(alloc, operand)?,
        })
    }

    /// Operators of one level, grouped from the left. It takes the memory of a box.
    pub fn chain(
        alloc: Global,
        first: Expr,
        second: Link,
        rest: Vec<Link>,
    ) -> Result<Expr, AllocError>
        ensures { IfOk result (λ e. view e ≡ chained (view first) (pair_view second) (pairs_view rest)) }
    {
        let chain = Chain {
            first,
            second,
            rest,
        };
        Ok(Expr::Chain(Box::new(alloc, chain)?))
    }
}

impl Element {
    /// A value behind its choices.
    pub fn new(choices: Vec<Choice>, value: Expr) -> Element
        ensures { element_view result ≡ element_by (choices_view choices) (view value) }
    {
        Element { choices, value }
    }
}

impl Suffix {
    /// `( all )`: indices or arguments.
    pub fn from_arguments(all: Vec<Expr>) -> Suffix
        ensures { suffix_view result ≡ arguments (exprs_of (exprs_view all)) }
    {
        Suffix::Arguments(all)
    }

    /// `( range )`: a slice. It takes the memory of a box.
    pub fn from_range(alloc: Global, range: Range) -> Result<Suffix, AllocError>
        ensures { IfOk result (λ s. suffix_view s ≡ sliced (view range.left) range.direction (view range.right)) }
    {
        Ok(Suffix::Range(Box::new(alloc, range)?))
    }
}
