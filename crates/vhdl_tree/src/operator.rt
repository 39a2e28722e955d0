//! Operators, signs and directions (IEEE 1076-2008 clauses 9.2 and 5.2).

ghost use Rattle.std.specs.Prelude.{◌≡◌};
ghost use Rattle.vhdl_tree.specs.grammar.Expressions as grammar;

use vhdl_lexer::TokenKind;

/// The token that each of these is.
macro_rules! token {
    ($of:expr, $name:ident: $($variant:ident = $kind:ident),+) => {
        match $of {
            $($name::$variant => TokenKind::$kind,)+
        }
    };
}

/// A binary operator.
#[derive(Clone, Copy, Debug)]
pub enum Operator {
    And,
    Or,
    Xor,
    Xnor,
    Nand,
    Nor,
    Equal,
    NotEqual,
    Less,
    LessEqual,
    Greater,
    GreaterEqual,
    Add,
    Subtract,
    Concatenate,
    Multiply,
    Divide,
    Modulo,
    Remainder,
}

/// The sign of a sum's first operand.
#[derive(Clone, Copy, Debug)]
pub enum Sign {
    Plus,
    Minus,
}

/// The direction of a range.
#[derive(Clone, Copy, Debug)]
pub enum Direction {
    To,
    Downto,
}

impl Operator {
    /// The token that an operator is.
    pub fn kind(self) -> TokenKind
        ensures { result ≡ grammar.kind_of self }
    {
        token!(
            self, Operator:
            And = And, Or = Or, Xor = Xor, Xnor = Xnor, Nand = Nand, Nor = Nor,
            Equal = Equal, NotEqual = NotEqual, Less = Less, LessEqual = LessEqual,
            Greater = Greater, GreaterEqual = GreaterEqual,
            Add = Plus, Subtract = Minus, Concatenate = Ampersand,
            Multiply = Star, Divide = Slash, Modulo = Mod, Remainder = Rem
        )
    }

    /// Whether a logical operator may stand several times in one chain.
    pub fn repeats(self) -> bool
        ensures { result ≡ grammar.repeats self }
    {
        match self {
            Operator::And | Operator::Or | Operator::Xor | Operator::Xnor => true,
            _ => false,
        }
    }
}

impl Sign {
    /// The token that a sign is.
    pub fn kind(self) -> TokenKind
        ensures { result ≡ grammar.sign_kind self }
    {
        token!(self, Sign: Plus = Plus, Minus = Minus)
    }
}

impl Direction {
    /// The token that a direction is.
    pub fn kind(self) -> TokenKind
        ensures { result ≡ grammar.direction_kind self }
    {
        token!(self, Direction: To = To, Downto = Downto)
    }
}
