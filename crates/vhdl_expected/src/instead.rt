//! What stands in place of another word or delimiter, with what is told of each.

use crate::help::{
    ARROW, ASSIGN, CLOSE, COMMA, COMPARE, CONDITIONAL, END_STATEMENT, IS, SELECT, THEN,
};
use crate::reading::MOST_TOKENS;
use crate::row::{Row, before, here, in_place, in_place_here, row};
use crate::texts::{SPARE, SPARE_BEFORE, STEP};
use vhdl_lexer::TokenKind;
use vhdl_parser_rules::Said;

const AT_LEAST: &str = "write a >= b where a is greater than b or equal to it";

const BY_ONES: Said = (
    "can't stand here: a loop goes through its whole range, by ones",
    "write for i in 0 to 3 loop, and 2 * i inside it",
);

const CHOSEN: Said = (
    "can't stand here: `=>` is expected in place of the `<=` before the name before it",
    ARROW,
);

const CHOICES_BEFORE: Said = (
    "can't stand here: `when` and a choice are expected before it",
    "write with s select y <= a when '0' | '1', b when others;",
);

const ELSE_BEFORE: Said = (
    "can't stand here: `else` is expected in place of the `;` before it",
    CONDITIONAL,
);

const ELSE_NAME: Said = (
    "can't stand here: `else` is expected in place of the `;` before the name before it",
    CONDITIONAL,
);

const LAST_COMMA: &str = "can't stand here: `;` is expected in place of the last comma";

const LISTED: &str = "part ports and generics by `;`, and the names of one declaration by commas";

const UNCHANGED: Said = (
    "isn't a value that is read here",
    "write a value in each case; what keeps its value is a register: if rising_edge(clk) then .. end if;",
);

/// What stands in place of `:=`.
pub static INSTEAD: [Row; 2] = [
    // Before another statement: so a declaration isn't taken for an assignment.
    in_place_here!("`<=` or `:=`", ASSIGN, [Arrow] Assign Integer Semicolon Null Semicolon),
    in_place_here!("`:=`", ASSIGN, [Arrow] Assign Integer),
];

/// What stands in place of `<=`.
pub static SIGNALS: [Row; 2] = [
    // An aggregate: so an operand isn't taken for the target of an assignment.
    in_place_here!("`<=`", ASSIGN, [Arrow] LessEqual LeftParen Others Arrow Integer RightParen Semicolon),
    in_place_here!("`<=`", ASSIGN, [Arrow] LessEqual LeftParen Others Arrow Integer RightParen When Others Semicolon),
];

/// The same with `--wide`, where an aggregate is an operand.
pub static WIDE_SIGNALS: [Row; 2] = [
    // In a relation: so an operand isn't taken for the target, since no relation follows another.
    in_place_here!("`<=`", ASSIGN, [Arrow] LessEqual Integer Equal Integer Semicolon),
    in_place_here!("`<=`", ASSIGN, [Arrow] LessEqual Integer Equal Integer When Others Semicolon),
];

/// What stands in place of `>=`, `=` or `=>`, or of a word.
pub static RELATED: [Row; 15] = [
    in_place_here!("`>=`", AT_LEAST, [Arrow] GreaterEqual Integer Then),
    in_place_here!("`>=`", AT_LEAST, [Arrow] GreaterEqual Integer RightParen Then),
    in_place_here!("`>=`", AT_LEAST, [Arrow] GreaterEqual Integer Else Integer Semicolon),
    in_place_here!("`>=`", AT_LEAST, [Arrow] GreaterEqual Integer RightParen Else Integer Semicolon),
    in_place!("`=`", COMPARE, [Is] Equal),
    in_place!("`select`", SELECT, [Is] Select),
    in_place!("`is`", IS, [Of] Is),
    in_place!("`is`", IS, [Assign] Is),
    in_place_here!("`when`", CONDITIONAL, [If] When Integer Semicolon),
    row!(STEP, 0, [Plus Plus] 2, [LessEqual Integer]),
    row!(BY_ONES, 0, [Identifier Integer Loop] 2, []),
    row!(BY_ONES, 0, [Identifier Integer Generate] 2, []),
    row!(CHOSEN, 2, [LessEqual Identifier LessEqual] 1, [Arrow]),
    row!(CHOSEN, 2, [LessEqual Identifier Assign] 1, [Arrow]),
    in_place_here!("`=>`", ARROW, [Colon] Arrow Identifier RightParen Semicolon),
];

/// What parts values and statements otherwise than it has to.
pub static PARTS: [Row; 14] = [
    row!((LAST_COMMA, END_STATEMENT), 8, [Comma Identifier LessEqual] 1, [Semicolon]),
    row!((LAST_COMMA, END_STATEMENT), 4, [Comma Identifier LessEqual] 1, [Semicolon]),
    row!((LAST_COMMA, END_STATEMENT), 5, [Comma Identifier LessEqual] 1, [Semicolon]),
    row!((LAST_COMMA, END_STATEMENT), 6, [Comma Identifier LessEqual] 1, [Semicolon]),
    row!((LAST_COMMA, END_STATEMENT), 7, [Comma Identifier LessEqual] 1, [Semicolon]),
    row!((LAST_COMMA, END_STATEMENT), 7, [Comma Identifier LeftParen] 1, [Semicolon]),
    in_place_here!("`,`", SELECT, [Else] Comma Integer When Others Semicolon),
    in_place_here!("`else`", CONDITIONAL, [Then] Else Integer Semicolon),
    in_place_here!("`else`", CONDITIONAL, [Colon] Else Integer Semicolon),
    in_place_here!("`else`", CONDITIONAL, [Elsif] Else Integer Semicolon),
    before!("`when others`", SELECT, [Semicolon] When Others),
    before!("`when`", SELECT, [Others] When),
    here!(CHOICES_BEFORE, 0, [Comma] [When Others Comma Integer When Others Semicolon]),
    here!(CHOICES_BEFORE, 0, [Else] [When Others Semicolon]),
];

/// What parts alternatives and declarations otherwise than it has to.
pub static DIVIDED: [Row; 13] = [
    row!(SPARE_BEFORE, 1, [Semicolon Else] 1, []),
    row!(SPARE, 0, [Semicolon Then] 1, []),
    row!(ELSE_BEFORE, 1, [Semicolon Character] 1, [Else]),
    row!(ELSE_BEFORE, 1, [Semicolon String] 1, [Else]),
    row!(ELSE_BEFORE, 1, [Semicolon BitString] 1, [Else]),
    row!(ELSE_NAME, 2, [Semicolon Identifier When] 1, [Else]),
    row!(ELSE_NAME, 2, [Semicolon Identifier Semicolon] 1, [Else]),
    row!(("can't stand here: `,` is expected in place of the `;` before the name before it", SELECT),
        2, [Semicolon Identifier When] 1, [Comma]),
    in_place_here!("`;`", LISTED, [Comma Identifier] Semicolon Identifier Comma Identifier Colon Identifier),
    here!(("can't stand here: `;` and another declaration are expected in its place",
        "write signal a, b : std_logic; or signal a : std_logic; signal b : std_logic;"),
        0, [Comma Identifier Colon] [Semicolon Signal Identifier Colon Identifier]),
    in_place!("`;`", END_STATEMENT, [Comma Signal] Semicolon),
    in_place!("`;`", END_STATEMENT, [Dot] Semicolon),
    in_place_here!("`,`", COMMA, [Semicolon Identifier] Comma Identifier RightParen Semicolon),
];

/// What a comma or another sign stands in place of, and what says nothing.
pub static UNPARTED: [Row; 13] = [
    here!(("can't stand here: `)` is expected before the comma before it", CLOSE),
        2, [Comma Identifier Arrow] [RightParen Comma Identifier Arrow Identifier RightParen Semicolon]),
    in_place!("`;`", END_STATEMENT, [Comma Identifier] Semicolon),
    in_place!("`then`", THEN, [Comma] Then),
    here!(("can't stand here: `and` is expected in its place", "join conditions by and: a = '1' and b = '0'"),
        0, [Comma] [And Integer Then]),
    in_place_here!("`else`", CONDITIONAL, [Comma] Else Integer Semicolon),
    row!(("can't stand here: the target of an assignment is one name",
        "assign each by a statement of its own: y <= a; z <= a;"),
        0, [Comma Identifier LessEqual] 1, [LessEqual Integer Semicolon]),
    here!(("can't stand here: a selected assignment begins with it, and its target stands behind select", SELECT),
        2, [Identifier LessEqual With] [With Identifier Select Identifier LessEqual]),
    here!(("can't stand here: behind select a choice follows its value", SELECT),
        0, [Others Arrow] [Integer When Others Semicolon]),
    row!(("can't stand here: one when begins an alternative, and | parts its choices", "write when a | b =>"),
        1, [Bar When] 2, [Bar]),
    row!(("can't stand here: the `)` before it closes what is open", "leave one of the two out"),
        1, [RightParen RightParen Semicolon] 2, [RightParen]),
    row!(UNCHANGED, 0, [Unaffected] 1, [Integer]),
    row!(UNCHANGED, 1, [Else Null] 2, [Else Integer]),
    row!(("can't stand here: a name alone is no statement, and procedures aren't served here",
        "write y <= a; for a signal, and v := a; for a variable; an alternative of a case ends by itself"),
        0, [Semicolon] 0, [Assign Integer Semicolon Null]),
];
