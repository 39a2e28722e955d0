//! The changes that are tried where no other is told, nor a form that is known.

ghost use Rattle.std.specs.Prelude.{◌≡◌, map};
ghost use Rattle.vhdl_expected.specs.Told as spec;

use crate::by_language::told_in;
use crate::help::{
    ARROW, ASSIGN, COLON, COMMA, COMPARE, CONDITIONAL, END_STATEMENT, GENERATE, IN, IS, LOOP, OF,
    OUTSIDE_IF, THEN, TO,
};
use crate::reading::MOST_TOKENS;
use crate::row::{Row, before, here, in_place, in_place_here, row};
use crate::texts::{ARGUMENT, COMMENT, MERGE, OPERATOR, SPARE, UNREAD};
use vhdl_lexer::{Language, TokenKind};

/// An attribute with an argument.
pub static ATTRIBUTES: [Row; 1] = [
    row!(("isn't read here: of the attributes only 'event is served",
        "write what it stands for, or a generic in its place"),
        2, [Tick Identifier LeftParen] 2, []),
];

/// The same with `--wide`.
pub static WIDE_ATTRIBUTES: [Row; 1] = [row!(ARGUMENT, 2, [Tick Identifier LeftParen] 2, [])];

/// An operator that lacks, and a word in place of another.
pub static OPERATORS: [Row; 14] = [
    row!(("can't stand here: no unit is read behind a number, and no name without an operator",
        "leave out what is a time or a delay; else write what joins the two, as + or &"),
        1, [Integer Identifier] 1, [Integer Ampersand]),
    row!(OPERATOR, 0, [] 0, [Ampersand]),
    row!(OPERATOR, 0, [] 0, [And]),
    row!(OPERATOR, 0, [] 0, [Or]),
    row!(OPERATOR, 0, [] 0, [Xor]),
    row!(("can't stand here: an operator is expected in its place",
        "write and, or, xor, nand, nor, xnor, mod or rem between two operands"),
        0, [Identifier Identifier] 1, [And]),
    row!(("can't stand here: a type is one name, and := stands before a value",
        "write the type's name alone, as std_logic, and := before the value"),
        0, [Identifier] 0, [Assign]),
    in_place!("`to` or `downto`", TO, [Colon] To),
    in_place!("`=>`", ARROW, [] Arrow),
    in_place!("`,`", COMMA, [] Comma),
    in_place!("`then`", THEN, [] Then),
    in_place!("`is`", IS, [Equal] Is),
    in_place!("`is`", IS, [Colon] Is),
    in_place!("`is`", IS, [Semicolon] Is),
];

/// A delimiter or a word in place of another.
pub static DELIMITERS: [Row; 20] = [
    in_place!("`loop`", LOOP, [] Loop),
    row!(("can't stand outside of a process: `generate` is expected in its place, or a process around it", OUTSIDE_IF),
        0, [Then] 1, [Generate]),
    in_place!("`generate`", GENERATE, [] Generate),
    in_place!("`in`", IN, [Equal] In),
    in_place!("`in`", IN, [Assign] In),
    in_place!("`in`", IN, [Of] In),
    in_place!("`:=`", ASSIGN, [LessEqual] Assign),
    in_place!("`:=`", ASSIGN, [Colon] Assign),
    in_place!("`:=`", ASSIGN, [Equal] Assign),
    in_place_here!("`<=` or `:=`", ASSIGN, [Is] Assign Integer Semicolon Null Semicolon),
    in_place!("`:=`", ASSIGN, [Is] Assign),
    in_place!("`=`", COMPARE, [Assign] Equal),
    in_place!("`<=`", ASSIGN, [Assign] LessEqual LeftParen Others Arrow Integer RightParen When Integer Else Integer Equal),
    in_place!("`;`", END_STATEMENT, [] Semicolon),
    in_place!("`:`", COLON, [Equal] Colon),
    in_place!("`:`", COLON, [Semicolon In] Colon),
    in_place!("`:`", COLON, [Semicolon Out] Colon),
    in_place!("`:`", COLON, [Is] Colon),
    in_place!("`of`", OF, [] Of),
    before!("`when`", CONDITIONAL, [] When),
];

/// What may be left out.
pub static SPARES: [Row; 14] = [
    row!(UNREAD, 0, [New] 1, []),
    row!(UNREAD, 0, [Postponed] 1, []),
    row!(SPARE, 1, [Then Semicolon] 2, [Then]),
    row!(SPARE, 1, [Else Semicolon] 2, [Else]),
    row!(SPARE, 1, [Is Semicolon] 2, [Is]),
    row!(SPARE, 1, [Begin Semicolon] 2, [Begin]),
    row!(SPARE, 1, [Loop Semicolon] 2, [Loop]),
    row!(SPARE, 1, [Generate Semicolon] 2, [Generate]),
    row!(("can't stand here: what stands before it isn't finished",
        "write what lacks before it, as an operand, a value, a condition or null; or leave the `;` out"),
        0, [Semicolon] 1, []),
    row!(SPARE, 0, [Semicolon] 1, []),
    row!(SPARE, 0, [Comma] 1, []),
    row!(("can't stand here: a name or a value is expected before it", "write what lacks there"),
        0, [] 0, [Identifier]),
    row!(("can't stand here: no parenthesis is open before it", "open it where it has to begin, or leave this one out"),
        0, [RightParen] 1, []),
    row!(("can't stand here, and what follows goes on without it",
        "leave it out if it is one too many; else write what lacks before it, or put parentheses around what it begins"),
        0, [] 1, []),
];

/// What is no VHDL here, or stands outside of all units.
pub static STRAYS: [Row; 10] = [
    // Before an aggregate: so an operand isn't taken for the beginning of a statement.
    here!(COMMENT, 1, [Identifier Identifier Identifier] [Identifier LessEqual LeftParen Others Arrow Integer RightParen Semicolon]),
    here!(COMMENT, 0, [Identifier Identifier Identifier] [Signal]),
    here!(COMMENT, 0, [Identifier Identifier Identifier] [Entity Identifier Is]),
    here!(MERGE, 0, [Less Less Less] [Identifier LessEqual LeftParen Others Arrow Integer RightParen Semicolon]),
    here!(MERGE, 0, [Less Less Less] [Signal]),
    here!(MERGE, 0, [Less Less Less] [Entity Identifier Is]),
    here!(MERGE, 0, [Equal Equal Equal] [Identifier LessEqual LeftParen Others Arrow Integer RightParen Semicolon]),
    here!(MERGE, 0, [Greater Greater Greater] [Identifier LessEqual LeftParen Others Arrow Integer RightParen Semicolon]),
    here!(("can't stand here: no entity or architecture is open above it",
        "leave it out, or an end above it that is one too many"), 0, [End] [Entity Identifier Is]),
    here!(("can't stand here: outside of entities and architectures library and use clauses alone are read",
        "move it into an architecture, leave out an end above it that is one too many, or write -- before a comment"),
        0, [] [Entity Identifier Is]),
];

/// The tables of what else the token may be in this language; the first row counts with which the
/// text goes on.
pub(crate) fn otherwise(language: Language) -> [&'static [Row]; 5]
    ensures { map spec.rows_of result ≡ spec.other_tables language }
{
    [
        told_in(language, &ATTRIBUTES, &WIDE_ATTRIBUTES),
        &OPERATORS,
        &DELIMITERS,
        &SPARES,
        &STRAYS,
    ]
}
