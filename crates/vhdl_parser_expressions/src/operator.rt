//! Operators, and how tightly they bind (IEEE 1076-2008 clause 9.2).

ghost use Rattle.std.specs.Prelude.{◌≡◌};
ghost use Rattle.vhdl_parser_expressions.specs.reader.Expressions as read;

use vhdl_lexer::TokenKind;
use vhdl_tree::{Direction, Operator, Sign};

/// What a token is of these, each by its kind.
macro_rules! found {
    ($kind:expr, $name:ident: $($token:ident = $variant:ident),+) => {
        match $kind {
            $(Some(TokenKind::$token) => Some($name::$variant),)+
            _ => None,
        }
    };
}

/// How tightly operators bind, the loosest first.
#[derive(Clone, Copy)]
pub enum Level {
    Logical,
    Relation,
    Adding,
    Multiplying,
}

impl Level {
    /// The operator of this level that a token is.
    pub fn operator_at(self, kind: Option<TokenKind>) -> Option<Operator>
        ensures { result ≡ read.operator_at self kind }
    {
        match self {
            Level::Logical => logical_at(kind),
            Level::Relation => relation_at(kind),
            Level::Adding => adding_at(kind),
            Level::Multiplying => multiplying_at(kind),
        }
    }
}

fn logical_at(kind: Option<TokenKind>) -> Option<Operator>
    ensures { result ≡ read.logical_at kind }
{
    found!(kind, Operator: And = And, Or = Or, Xor = Xor, Xnor = Xnor, Nand = Nand, Nor = Nor)
}

fn relation_at(kind: Option<TokenKind>) -> Option<Operator>
    ensures { result ≡ read.relation_at kind }
{
    found!(
        kind, Operator:
        Equal = Equal, NotEqual = NotEqual, Less = Less, LessEqual = LessEqual,
        Greater = Greater, GreaterEqual = GreaterEqual
    )
}

fn adding_at(kind: Option<TokenKind>) -> Option<Operator>
    ensures { result ≡ read.adding_at kind }
{
    found!(kind, Operator: Plus = Add, Minus = Subtract, Ampersand = Concatenate)
}

fn multiplying_at(kind: Option<TokenKind>) -> Option<Operator>
    ensures { result ≡ read.multiplying_at kind }
{
    found!(kind, Operator: Star = Multiply, Slash = Divide, Mod = Modulo, Rem = Remainder)
}

/// The sign that a token is.
pub fn sign_at(kind: Option<TokenKind>) -> Option<Sign>
    ensures { result ≡ read.sign_at kind }
{
    found!(kind, Sign: Plus = Plus, Minus = Minus)
}

/// The direction that a token is.
pub fn direction_at(kind: Option<TokenKind>) -> Option<Direction>
    ensures { result ≡ read.direction_at kind }
{
    found!(kind, Direction: To = To, Downto = Downto)
}
