//! The changes that are tried at a refused token, with what is told of each.

ghost use Rattle.std.specs.Prelude.{◌≡◌, map};
ghost use Rattle.vhdl_expected.specs.Told as spec;

use crate::by_language::told_in;
use crate::closed::{CLOSED, MODES, PLACES, UNENDED};
use crate::help::{
    ALL, ALTERNATIVE, ARROW, ASSIGN, BEGIN, CASE, CLOSE, COLON, COMMA, COMPONENT, CONDITIONAL, DOT,
    END_CASE, END_COMPONENT, END_GENERATE, END_IF, END_IT, END_LOOP, END_PROCESS, ENTITY, GENERATE,
    IF, IN, IS, IS_PORT, LIBRARY, LOOP, MAP, OBJECT, OF, OPEN, PORT, PROCESS, SELECT, SIGNAL,
    SPARE_END, THEN, TO, TYPE, VARIABLE,
};
use crate::instead::{DIVIDED, INSTEAD, PARTS, RELATED, SIGNALS, UNPARTED, WIDE_SIGNALS};
use crate::names::{MAPPED, NAMES, RANGES, TYPES};
use crate::reading::MOST_TOKENS;
use crate::row::{Row, bare, before, before_name, here, in_place_here, row, spare_end, unended};
use crate::texts::{
    ALONE, ARGUMENT, AROUND, ASSIGNED, BLANK, BOUND, EITHER, INDEX, LITERAL, OF_GENERATE, OTHERS,
    RELATION, SHIFT, SIGN, SPARE, SPARE_BEFORE, STEP, TARGET, TWICE, TWO_MODES, UNEQUAL, UNTYPED,
    VALUE,
};
use vhdl_lexer::{Language, TokenKind};

/// What is written twice, or in place of a delimiter.
pub static SLIPS: [Row; 14] = [
    row!(TWICE, 1, [Begin Begin] 1, []),
    row!(TWICE, 1, [Then Then] 1, []),
    row!(TWICE, 1, [Is Is] 1, []),
    row!(TWICE, 1, [Semicolon Semicolon] 1, []),
    row!(TWICE, 1, [Comma Comma] 1, []),
    row!(TWICE, 1, [Dot Dot] 1, []),
    row!(("can't stand here: `to` or `downto` is expected in place of the points", TO),
        0, [Dot Dot] 2, [To]),
    row!(UNEQUAL, 1, [Less Greater] 2, [NotEqual]),
    row!(UNEQUAL, 1, [Equal Slash] 2, [NotEqual]),
    row!(("can't stand here: `<=` is expected in place of it and the delimiter before it",
        "write a <= b where a is less than b or equal to it"),
        1, [Equal Less] 2, [LessEqual]),
    row!(("can't stand here: `=>` is expected in place of it and the delimiter before it", ARROW),
        1, [Minus Greater] 2, [Arrow]),
    in_place_here!("`=>`", ARROW, [Minus Greater] Arrow Null Semicolon),
    in_place_here!("`=>`", ARROW, [Minus Greater] Arrow Integer RightParen Semicolon),
    row!(("can't stand here: `<=` is expected in place of it and the delimiter behind it", ASSIGN),
        0, [Less Minus] 2, [LessEqual]),
];

/// What a blank parts, and what is one too many.
pub static BLANKS: [Row; 16] = [
    row!(BLANK, 0, [Less Equal] 2, [LessEqual]),
    row!(BLANK, 1, [Less Equal] 2, [LessEqual]),
    row!(BLANK, 0, [Greater Equal] 2, [GreaterEqual]),
    row!(BLANK, 1, [Greater Equal] 2, [GreaterEqual]),
    row!(BLANK, 0, [Colon Equal] 2, [Assign]),
    row!(BLANK, 1, [Colon Equal] 2, [Assign]),
    row!(BLANK, 0, [Equal Greater] 2, [Arrow]),
    row!(BLANK, 1, [Equal Greater] 2, [Arrow]),
    row!(BLANK, 1, [Slash Equal] 2, [NotEqual]),
    row!(LITERAL, 0, [Tick Integer] 2, [Character]),
    row!(LITERAL, 1, [Integer Tick] 2, [Character]),
    row!(("can't stand here: the comma before it is one too many", "leave that out"),
        1, [Comma RightParen] 1, []),
    row!(SPARE, 0, [Comma Port] 1, []),
    row!(SPARE_BEFORE, 1, [Semicolon Port] 1, []),
    row!(TWO_MODES, 1, [In Out] 1, []),
    row!(TWO_MODES, 1, [Out In] 1, []),
];

/// What lacks at an end.
pub static ENDED: [Row; 12] = [
    bare!("`end if;`", END_IF, If),
    bare!("`end loop;`", END_LOOP, Loop),
    bare!("`end case;`", END_CASE, Case),
    bare!("`end process;`", END_PROCESS, Process),
    bare!("`end generate;`", END_GENERATE, Generate),
    bare!("`end component;`", END_COMPONENT, Component),
    unended!("`end if;`", END_IF, If),
    unended!("`end loop;`", END_LOOP, Loop),
    unended!("`end case;`", END_CASE, Case),
    unended!("`end process;`", END_PROCESS, Process),
    unended!("`end generate;`", END_GENERATE, Generate),
    unended!("`end component;`", END_COMPONENT, Component),
];

/// What ends something else, or is an end too many.
pub static ENDINGS: [Row; 12] = [
    row!(("can't follow this end: it ends an entity", "write end entity;"),
        1, [End Architecture] 2, [End Entity]),
    row!(("can't follow this end: it ends an architecture", "write end architecture;"),
        1, [End Entity] 2, [End Architecture]),
    row!(("can't follow this end: it ends a loop", "write end loop;"),
        1, [End For] 2, [End Loop]),
    row!(OF_GENERATE, 1, [End For] 2, [End Generate]),
    row!(OF_GENERATE, 1, [End If] 2, [End Generate]),
    row!(OF_GENERATE, 1, [End Loop] 2, [End Generate]),
    spare_end!("if", If),
    spare_end!("loop", Loop),
    spare_end!("case", Case),
    spare_end!("process", Process),
    spare_end!("generate", Generate),
    spare_end!("port list", Port),
];

/// What is wrong with an operand or an operator.
pub static OPERANDS: [Row; 14] = [
    row!(TWICE, 1, [And And] 1, []),
    row!(TWICE, 1, [Or Or] 1, []),
    row!(TWICE, 1, [Xor Xor] 1, []),
    row!(("can't stand here: `not` stands before a name, a literal or a parenthesis", "write not (not a), or a"),
        1, [Not Not] 1, []),
    row!(SHIFT, 1, [Greater Greater] 1, []),
    row!(SHIFT, 1, [Less Less] 1, []),
    row!(SIGN, 0, [Minus] 0, [Identifier]),
    row!(SIGN, 0, [Plus] 0, [Identifier]),
    row!(BOUND, 0, [Downto] 0, [Integer]),
    row!(BOUND, 0, [To] 0, [Integer]),
    row!(RELATION, 0, [Equal] 1, [And]),
    row!(RELATION, 0, [NotEqual] 1, [And]),
    row!(RELATION, 0, [Less] 1, [And]),
    row!(RELATION, 0, [Greater] 1, [And]),
];

/// What is wrong with a value, or with what gets it.
pub static VALUES: [Row; 13] = [
    row!(("can't stand here: a literal of bits has no length before it",
        "write \"0101\", b\"0101\" or x\"5\" for a vector, and '1' for one element"),
        1, [Integer Tick Identifier] 3, [BitString]),
    row!(OTHERS, 1, [LessEqual Others Arrow] 3, [LessEqual]),
    row!(OTHERS, 1, [Assign Others Arrow] 3, [Assign]),
    row!(ALONE, 5, [LeftParen Others Arrow Character RightParen Ampersand] 5, [Identifier]),
    row!(ALONE, 5, [LeftParen Others Arrow Character RightParen Plus] 5, [Identifier]),
    row!(ALONE, 5, [LeftParen Others Arrow Character RightParen And] 5, [Identifier]),
    row!(ALONE, 5, [LeftParen Others Arrow Character RightParen Or] 5, [Identifier]),
    row!(ALONE, 5, [LeftParen Others Arrow Character RightParen Xor] 5, [Identifier]),
    row!(STEP, 0, [Plus Equal] 2, [LessEqual]),
    row!(STEP, 0, [Minus Equal] 2, [LessEqual]),
    row!(("can't stand here: an assignment begins with its target, and no word before that", "write y <= a;"),
        1, [Identifier Identifier Equal] 3, [Identifier LessEqual LeftParen Others Arrow Integer RightParen Semicolon Identifier LessEqual]),
    row!(("can't stand here: an operator is expected before the tick before it, or quotation marks in place of both ticks",
        "write rst = '1' of one element, and x\"07\" of several"), 2, [Identifier Tick Integer Tick] 4, [BitString]),
    row!(("can't stand here: no range follows a value", "write h >= 656 and h <= 751 for h in 656 to 751"),
        0, [In Integer To] 3, [GreaterEqual]),
];

/// What lacks between two parts.
pub static JOINTS: [Row; 12] = [
    before!("`then`", THEN, [] Then),
    before!("`is`", IS, [] Is),
    before!("`loop`", LOOP, [] Loop),
    before!("`generate`", GENERATE, [] Generate),
    before!("`;`", END_IT, [] Semicolon),
    before_name!("`;`", END_IT, [Identifier] Semicolon),
    before!("`)`", CLOSE, [] RightParen),
    before!("`(`", OPEN, [] LeftParen),
    before!("`=>`", ARROW, [] Arrow),
    // Behind another alternative: so what is no choice isn't taken for one.
    before!("`when`", ALTERNATIVE, [] When Others Arrow Null Semicolon When),
    before_name!("`when`", ALTERNATIVE, [Identifier] When Others Arrow Null Semicolon When),
    here!(("can't stand here: `<=` is expected before it, or in an instance `:` and the word entity",
        "write y <= resize(a, 8); or u : entity work.k port map (a, b);"),
        1, [Identifier Identifier LeftParen] [Identifier Colon Identifier Port]),
];

/// Of what an assignment lacks.
pub static TARGETS: [Row; 4] = [
    // Behind an aggregate, and behind another statement: so neither an operand nor a declaration is
    // taken for an assignment. The token stands in a relation: so none follows it, as that of
    // another assignment.
    row!(ASSIGNED, 0, [] 0, [LessEqual LeftParen Others Arrow Integer RightParen When Integer Else Integer Equal]),
    row!(EITHER, 0, [] 0, [Assign Integer Semicolon Null Semicolon Identifier Assign Integer Equal]),
    // A character literal behind a name is read as two ticks with a word between them.
    row!(ASSIGNED, 0, [Tick Integer Tick] 3, [LessEqual LeftParen Others Arrow Integer RightParen When Integer Else Integer Equal Character]),
    row!(EITHER, 0, [Tick Integer Tick] 3, [Assign Integer Semicolon Null Semicolon Identifier Assign Integer Equal Character]),
];

/// The same with `--wide`, where an aggregate is an operand.
pub static WIDE_TARGETS: [Row; 4] = [
    row!(EITHER, 0, [] 0, [Assign Integer Semicolon Null Semicolon Identifier Assign Integer Equal]),
    // In a relation: so an operand isn't taken for the target, since no relation follows another.
    row!(ASSIGNED, 0, [] 0, [LessEqual Integer Equal]),
    row!(EITHER, 0, [Tick Integer Tick] 3, [Assign Integer Semicolon Null Semicolon Identifier Assign Integer Equal Character]),
    row!(ASSIGNED, 0, [Tick Integer Tick] 3, [LessEqual Integer Equal Character]),
];

/// Of what a value in a declaration lacks.
pub static VALUED: [Row; 5] = [
    row!(VALUE, 0, [Tick Integer Tick] 3, [Assign Character]),
    row!(VALUE, 0, [Integer] 0, [Assign]),
    row!(VALUE, 0, [String] 0, [Assign]),
    row!(VALUE, 0, [BitString] 0, [Assign]),
    row!(VALUE, 0, [LeftParen Others] 0, [Assign]),
];

/// What lacks in a declaration.
pub static DECLARED: [Row; 13] = [
    before!("`signal` or `constant`", OBJECT, [Identifier] Constant),
    before!("`signal`", SIGNAL, [Identifier] Signal),
    before!("`variable`", VARIABLE, [Identifier] Variable),
    before!("`type`", TYPE, [Identifier] Type),
    before!("`begin`", BEGIN, [] Begin),
    row!(TARGET, 0, [Identifier LessEqual] 0, [Colon]),
    row!(TARGET, 0, [Identifier Assign] 0, [Colon Null Semicolon]),
    row!(UNTYPED, 0, [Assign] 1, [Colon Identifier Assign]),
    row!(UNTYPED, 0, [LessEqual] 1, [Colon Identifier Assign]),
    // Behind another declaration: so an assignment isn't taken for one.
    row!(UNTYPED, 0, [Equal Integer] 1, [Colon Identifier Assign Integer Semicolon Constant Identifier Colon Identifier Assign]),
    row!(UNTYPED, 0, [Equal Character] 1, [Colon Identifier Assign Integer Semicolon Constant Identifier Colon Identifier Assign]),
    row!(UNTYPED, 0, [Equal Integer] 1, [Colon Identifier Assign Integer Semicolon Variable Identifier Colon Identifier Assign]),
    row!(UNTYPED, 0, [Equal Character] 1, [Colon Identifier Assign Integer Semicolon Variable Identifier Colon Identifier Assign]),
];

/// What lacks in a list, or in what goes on behind a name.
pub static LISTS: [Row; 14] = [
    before!("`:`", COLON, [] Colon),
    // Behind a slice: so an index in an expression, or in the name that is assigned, isn't taken
    // for a list of names.
    row!(INDEX, 0, [] 0, [To Integer RightParen Ampersand Identifier LeftParen Integer Comma]),
    row!(INDEX, 0, [] 0, [To Integer RightParen LessEqual Integer Semicolon Identifier LeftParen Integer Comma]),
    before!("`,`", COMMA, [] Comma),
    before!("`of`", OF, [] Of),
    before!("`of`, and the name of its entity,", OF, [Is] Of Identifier),
    before!("`in`", IN, [] In),
    row!(ARGUMENT, 2, [Tick Range LeftParen Integer RightParen] 5, [Tick Range]),
    before!("`to` or `downto`", TO, [] To),
    before!("`map`", MAP, [] Map),
    before!("`select`", SELECT, [] Select),
    before!("`else`", CONDITIONAL, [] Else),
    before!("`process`", PROCESS, [LeftParen] Process),
    before!("`process`", PROCESS, [Begin] Process),
];

/// What lacks at the beginning of a statement or a list.
pub static HEADS: [Row; 12] = [
    before!("`if`", IF, [] If),
    row!(("can't stand here: `elsif` is expected in place of the else before it", "write elsif b = '1' then"),
        2, [Else Identifier] 1, [Elsif]),
    row!(("can't stand here: `else` is expected in place of the elsif before it", THEN), 2, [Elsif Identifier Assign] 1, [Else]),
    row!(("can't stand here: `if` or `elsif` is expected before the name before it", IF),
        0, [] 0, [LessEqual Integer Semicolon If Identifier]),
    before!("`case`", CASE, [LeftParen] Case),
    before_name!("`case`", CASE, [Identifier] Case),
    before!("`component`", COMPONENT, [Identifier] Component),
    before!("`port` or `generic`", PORT, [] Port),
    before!("`is port`", IS_PORT, [LeftParen] Is Port),
    before!("`port map`", MAP, [LeftParen] Port Map),
    row!(("can't stand here: `port map` is expected in place of it and the word behind it", MAP),
        0, [Map Port] 2, [Port Map]),
    here!(("can't stand here: `(` is expected before it", "write port map (a => b, c => d)"),
        1, [Map Identifier] [Map LeftParen Open RightParen Semicolon]),
];

/// What lacks in a unit, or in what is named.
pub static UNITS: [Row; 12] = [
    before!("`entity`", ENTITY, [] Entity),
    before!("`architecture`", OF, [] Architecture),
    before!("`.`", DOT, [] Dot),
    before!("`use`", LIBRARY, [Identifier] Use),
    before!("`library`", LIBRARY, [Identifier] Library),
    row!(("can't stand here: `work.` is expected before the name before it", "write u : entity work.e port map (..)"),
        0, [] 0, [Dot Identifier]),
    row!(("can't stand here: `all`, or a name, is expected before it",
        "write process (all), or the names that it reads"),
        0, [RightParen] 0, [All]),
    row!(AROUND, 0, [Identifier Begin] 1, [LeftParen Identifier RightParen]),
    row!(AROUND, 0, [Identifier Is] 1, [LeftParen Identifier RightParen]),
    before!("`all`", ALL, [] All),
    row!(("can't stand here: a signal, or `open`, is expected before it", "name what is connected, or write open"),
        0, [] 0, [Open]),
    row!(("can't stand here: a formal has no point, and stands before =>", "write port map (a => b)"),
        0, [Dot Identifier LeftParen] 1, [Identifier Arrow]),
];

/// The tables of what lacks, or of what else is wrong, at the token or shortly before it in this
/// language; the first row counts with which the text goes on.
pub(crate) fn missing(language: Language) -> [&'static [Row]; 27]
    ensures { map spec.rows_of result ≡ spec.missing_tables language }
{
    [
        &SLIPS,
        &BLANKS,
        &ENDED,
        &ENDINGS,
        &OPERANDS,
        &VALUES,
        &JOINTS,
        told_in(language, &TARGETS, &WIDE_TARGETS),
        &VALUED,
        &DECLARED,
        &LISTS,
        &HEADS,
        &UNITS,
        &CLOSED,
        &UNENDED,
        &PLACES,
        &MODES,
        &NAMES,
        &MAPPED,
        &TYPES,
        &RANGES,
        &INSTEAD,
        told_in(language, &SIGNALS, &WIDE_SIGNALS),
        &RELATED,
        &PARTS,
        &DIVIDED,
        &UNPARTED,
    ]
}
