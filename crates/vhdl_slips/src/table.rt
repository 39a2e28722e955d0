//! The words at which forms of VHDL begin that aren't read, and slips of the pen; of two rows that
//! fit the first counts. Some tables differ by the language.

use crate::form::{
    ABSOLUTE, ACTUAL, AGGREGATE, ALIAS, ARRAY, ATTRIBUTE, BLOCK, BOOLEAN, Behind, CHOICE, DEFAULT,
    DELAY, DYNAMIC_INDEX, ELEMENT, FUNCTION, FormWord, INSTANCE, LIBRARY, MESSAGE, MODE,
    NUMBER_RANGE, ORDER, OTHER_LOOP, OTHER_TYPE, PACKAGE, POWER, QUALIFIED, RANGE_ATTRIBUTE,
    RECORD, REDUCTION, SECOND_INDEX, SHIFT, SIGNED, SUBPROGRAM, SUBTYPE, TRUTH, VECTOR, WAIT,
    WAIT_HEAD, WHOLE_NUMBERS,
};
use crate::slip::{
    ALTERNATIVE, ARROW, BEGIN, BEGIN_LINE, CASE_GENERATE, CASE_IS, CHOICE_RANGE, CHOICES, COMMA,
    COMMENT, CONDITIONAL, DECLARATION, DECLARATION_LINE, ELSE_CONDITION, ELSE_GENERATE, EQUALITIES,
    EQUALITY, FORMAL, GENERATE, GENERICS, LIST_END, LOGIC, LOOP_NAME, LOOP_RANGE, MIXED_LOGIC,
    NAME, NAMES, NEW_LINE, OTHERS, PORT_MAP, QUOTES, SELECTED, SLIP, TARGET, UNENDED, VARIABLE,
    VECTOR_GENERIC, WHEN, WHEN_LINE,
};
use crate::wide;
use vhdl_lexer::TokenKind;

/// Slips of the pen: words in place of a name, and what begins in another place than its own.
pub static BEGUN: [FormWord; 11] = [
    (b"", Behind::Kind(TokenKind::Signal), NAME),
    (b"", Behind::Kind(TokenKind::Variable), NAME),
    (b"", Behind::Kind(TokenKind::Constant), NAME),
    (b"", Behind::Kind(TokenKind::Type), NAME),
    (b"loop", Behind::Concurrent, GENERATE),
    (b"loop", Behind::Operand, LOOP_RANGE),
    (b"else", Behind::Concurrent, ELSE_GENERATE),
    (b"elsif", Behind::Concurrent, ELSE_GENERATE),
    (b"case", Behind::Concurrent, CASE_GENERATE),
    (b"generic", Behind::Kind(TokenKind::Semicolon), GENERICS),
    (b"generic", Behind::Kind(TokenKind::RightParen), GENERICS),
];

/// Conditions, alternatives and choices.
pub static CONDITIONS: [FormWord; 10] = [
    (b"if", Behind::Kind(TokenKind::Else), ELSE_CONDITION),
    (b"when", Behind::Kind(TokenKind::Else), ELSE_CONDITION),
    (b"when", Behind::Target, SELECTED),
    (b"when", Behind::Concurrent, WHEN),
    (b"when", Behind::Kind(TokenKind::Semicolon), ALTERNATIVE),
    (b"when", Behind::Opener(TokenKind::Case), CASE_IS),
    (b"to", Behind::Opener(TokenKind::When), CHOICE_RANGE),
    (b"downto", Behind::Opener(TokenKind::When), CHOICE_RANGE),
    (b",", Behind::Opener(TokenKind::When), CHOICES),
    (b",", Behind::Opener(TokenKind::Bar), CHOICES),
];

/// Lists of ports, of names and of a loop.
pub static LISTS: [FormWord; 10] = [
    (b",", Behind::Instance, PORT_MAP),
    (b";", Behind::Instance, PORT_MAP),
    (b",", Behind::Index(TokenKind::Dot), PORT_MAP),
    (b"=>", Behind::Index(TokenKind::Dot), PORT_MAP),
    (b"=>", Behind::Index(TokenKind::Colon), PORT_MAP),
    (b"and", Behind::Opener(TokenKind::LeftParen), NAMES),
    (b"and", Behind::Opener(TokenKind::Comma), NAMES),
    (b"or", Behind::Opener(TokenKind::LeftParen), NAMES),
    (b"or", Behind::Opener(TokenKind::Comma), NAMES),
    (b"(", Behind::Kind(TokenKind::For), LOOP_NAME),
];

/// What nothing is assigned to, and a begin too many.
pub static TARGETS: [FormWord; 11] = [
    (b"(", Behind::Kind(TokenKind::Semicolon), TARGET),
    (b"(", Behind::Kind(TokenKind::Begin), TARGET),
    (b"(", Behind::Kind(TokenKind::Then), TARGET),
    (b"(", Behind::Kind(TokenKind::Else), TARGET),
    (b"(", Behind::Kind(TokenKind::Loop), TARGET),
    (b"(", Behind::Kind(TokenKind::Generate), TARGET),
    (b"(", Behind::Kind(TokenKind::Arrow), TARGET),
    (b"&", Behind::Opener(TokenKind::Semicolon), TARGET),
    (b"&", Behind::Opener(TokenKind::Begin), TARGET),
    (b"begin", Behind::NewLine, BEGIN_LINE),
    (b"begin", Behind::Kind(TokenKind::RightParen), BEGIN),
];

/// Signs that are written twice, or in place of another.
pub static SIGNS: [FormWord; 11] = [
    (b"&", Behind::Kind(TokenKind::Ampersand), LOGIC),
    (b"|", Behind::Anything, LOGIC),
    (b"/", Behind::Anything, COMMENT),
    (b"'", Behind::Operand, SLIP),
    (b"'", Behind::Anything, QUOTES),
    (b".", Behind::Kind(TokenKind::LeftParen), FORMAL),
    (b".", Behind::Kind(TokenKind::Comma), FORMAL),
    (b".", Behind::Kind(TokenKind::Dot), SLIP),
    (b"=", Behind::Kind(TokenKind::Equal), EQUALITIES),
    (b"=", Behind::Opener(TokenKind::Else), ELSE_CONDITION),
    (b"=", Behind::Target, EQUALITY),
];

/// Variables, and the end of a list.
pub static VARIABLES: [FormWord; 3] = [
    (b"variable", Behind::NewLine, NEW_LINE),
    (b"variable", Behind::Anything, VARIABLE),
    (b")", Behind::Kind(TokenKind::Semicolon), LIST_END),
];

/// Other declarations, and `when` behind the end of a line.
pub static DECLARED: [FormWord; 9] = [
    (b"when", Behind::NewLine, WHEN_LINE),
    (b"constant", Behind::NewLine, DECLARATION_LINE),
    (b"constant", Behind::Anything, DECLARATION),
    (b"type", Behind::NewLine, DECLARATION_LINE),
    (b"type", Behind::Anything, DECLARATION),
    (b"signal", Behind::NewLine, DECLARATION_LINE),
    (b"signal", Behind::Anything, DECLARATION),
    (b"component", Behind::NewLine, DECLARATION_LINE),
    (b"component", Behind::Anything, DECLARATION),
];

/// The same with `--wide`.
pub static WIDE_DECLARED: [FormWord; 11] = [
    (b"when", Behind::NewLine, wide::WHEN_LINE),
    (b"constant", Behind::NewLine, wide::DECLARATION_LINE),
    (b"constant", Behind::Anything, wide::DECLARATION),
    (b"type", Behind::NewLine, wide::DECLARATION_LINE),
    (b"type", Behind::Anything, wide::DECLARATION),
    (b"subtype", Behind::NewLine, wide::DECLARATION_LINE),
    (b"subtype", Behind::Anything, wide::DECLARATION),
    (b"signal", Behind::NewLine, wide::DECLARATION_LINE),
    (b"signal", Behind::Anything, wide::DECLARATION),
    (b"component", Behind::NewLine, wide::DECLARATION_LINE),
    (b"component", Behind::Anything, wide::DECLARATION),
];

/// Forms that are read with `--wide` alone: ranges and subtypes, messages, operators.
pub static STATIC: [FormWord; 8] = [
    (b"range", Behind::Kind(TokenKind::Tick), RANGE_ATTRIBUTE),
    (b"range", Behind::Anything, NUMBER_RANGE),
    (b"subtype", Behind::Anything, SUBTYPE),
    (b"assert", Behind::Anything, MESSAGE),
    (b"report", Behind::Anything, MESSAGE),
    (b"abs", Behind::Anything, ABSOLUTE),
    (b"*", Behind::Kind(TokenKind::Star), POWER),
    (b"(", Behind::Kind(TokenKind::Tick), QUALIFIED),
];

/// The same words with `--wide`, where those forms don't stand.
pub static WIDE_STATIC: [FormWord; 6] = [
    (b"range", Behind::Anything, wide::NUMBER_RANGE),
    (b"assert", Behind::Anything, wide::MESSAGE),
    (b"report", Behind::Anything, wide::MESSAGE),
    (b"abs", Behind::Anything, wide::ABSOLUTE),
    (b"*", Behind::Kind(TokenKind::Star), wide::POWER),
    (b"(", Behind::Kind(TokenKind::Tick), wide::QUALIFIED),
];

/// Conditional values, aggregates and associations.
pub static AGGREGATES: [FormWord; 8] = [
    (b"when", Behind::Anything, CONDITIONAL),
    (b"to", Behind::Opener(TokenKind::LeftParen), AGGREGATE),
    (b"downto", Behind::Opener(TokenKind::LeftParen), AGGREGATE),
    (b"=>", Behind::Opener(TokenKind::LeftParen), AGGREGATE),
    (b"=>", Behind::Opener(TokenKind::Comma), AGGREGATE),
    (b"=>", Behind::Anything, ARROW),
    (b"others", Behind::Anything, OTHERS),
    (b",", Behind::Anything, COMMA),
];

/// The same words with `--wide`.
pub static WIDE_AGGREGATES: [FormWord; 6] = [
    (b"when", Behind::Anything, WHEN),
    (b"=>", Behind::Opener(TokenKind::LeftParen), wide::FORMAL),
    (b"=>", Behind::Opener(TokenKind::Comma), wide::FORMAL),
    (b"=>", Behind::Anything, ARROW),
    (b"others", Behind::Anything, wide::OTHERS),
    (b",", Behind::Anything, wide::COMMA),
];

/// Forms that the grammar hasn't: types and objects.
pub static TYPES: [FormWord; 8] = [
    (b"array", Behind::Anything, ARRAY),
    (b"record", Behind::Anything, RECORD),
    (b".", Behind::Opener(TokenKind::Colon), INSTANCE),
    (b".", Behind::Anything, RECORD),
    (b"units", Behind::Anything, OTHER_TYPE),
    (b"access", Behind::Anything, OTHER_TYPE),
    (b"file", Behind::Anything, OTHER_TYPE),
    (b"shared", Behind::Anything, OTHER_TYPE),
];

/// Subprograms, packages and declarations.
pub static UNITS: [FormWord; 9] = [
    (b"function", Behind::Anything, SUBPROGRAM),
    (b"procedure", Behind::Anything, SUBPROGRAM),
    (b"pure", Behind::Anything, SUBPROGRAM),
    (b"impure", Behind::Anything, SUBPROGRAM),
    (b"return", Behind::Anything, SUBPROGRAM),
    (b"package", Behind::Anything, PACKAGE),
    (b"attribute", Behind::Anything, ATTRIBUTE),
    (b"group", Behind::Anything, ATTRIBUTE),
    (b"alias", Behind::Anything, ALIAS),
];

/// Modes, waits and delays.
pub static WAITS: [FormWord; 11] = [
    (b"inout", Behind::Anything, MODE),
    (b"buffer", Behind::Anything, MODE),
    (b"linkage", Behind::Anything, MODE),
    (b"wait", Behind::Anything, WAIT),
    (b"for", Behind::Kind(TokenKind::Wait), WAIT_HEAD),
    (b"on", Behind::Kind(TokenKind::Wait), WAIT_HEAD),
    (b";", Behind::Kind(TokenKind::Wait), WAIT_HEAD),
    (b"after", Behind::Anything, DELAY),
    (b"transport", Behind::Anything, DELAY),
    (b"inertial", Behind::Anything, DELAY),
    (b"reject", Behind::Anything, DELAY),
];

/// Statements and blocks.
pub static STATEMENTS: [FormWord; 9] = [
    (b"configuration", Behind::Anything, BLOCK),
    (b"block", Behind::Anything, BLOCK),
    (b"guarded", Behind::Anything, BLOCK),
    (b"disconnect", Behind::Anything, BLOCK),
    (b"register", Behind::Anything, BLOCK),
    (b"bus", Behind::Anything, BLOCK),
    (b"while", Behind::Anything, OTHER_LOOP),
    (b"next", Behind::Anything, OTHER_LOOP),
    (b"exit", Behind::Anything, OTHER_LOOP),
];

/// Logical operators.
pub static LOGICAL: [FormWord; 12] = [
    (b"and", Behind::Operand, MIXED_LOGIC),
    (b"and", Behind::Anything, REDUCTION),
    (b"or", Behind::Operand, MIXED_LOGIC),
    (b"or", Behind::Anything, REDUCTION),
    (b"xor", Behind::Operand, MIXED_LOGIC),
    (b"xor", Behind::Anything, REDUCTION),
    (b"nand", Behind::Operand, MIXED_LOGIC),
    (b"nand", Behind::Anything, REDUCTION),
    (b"nor", Behind::Operand, MIXED_LOGIC),
    (b"nor", Behind::Anything, REDUCTION),
    (b"xnor", Behind::Operand, MIXED_LOGIC),
    (b"xnor", Behind::Anything, REDUCTION),
];

/// Shifts.
pub static SHIFTS: [FormWord; 6] = [
    (b"sll", Behind::Anything, SHIFT),
    (b"srl", Behind::Anything, SHIFT),
    (b"sla", Behind::Anything, SHIFT),
    (b"sra", Behind::Anything, SHIFT),
    (b"rol", Behind::Anything, SHIFT),
    (b"ror", Behind::Anything, SHIFT),
];

/// Parentheses, and what isn't ended.
pub static ENDED: [FormWord; 5] = [
    (b"(", Behind::Kind(TokenKind::RightParen), SECOND_INDEX),
    (b"(", Behind::Target, VECTOR_GENERIC),
    (b"", Behind::NewLine, NEW_LINE),
    (b"", Behind::Kind(TokenKind::End), UNENDED),
    (b"loop", Behind::Anything, OTHER_LOOP),
];

/// What is left out: values, numbers, actuals and attributes.
pub static VALUES: [FormWord; 10] = [
    (b"to_integer", Behind::Anything, DYNAMIC_INDEX),
    (b"true", Behind::Anything, TRUTH),
    (b"false", Behind::Anything, TRUTH),
    (b"", Behind::Kind(TokenKind::Arrow), ACTUAL),
    (b"", Behind::Opener(TokenKind::Map), ACTUAL),
    (b"high", Behind::Kind(TokenKind::Tick), RANGE_ATTRIBUTE),
    (b"low", Behind::Kind(TokenKind::Tick), RANGE_ATTRIBUTE),
    (b"left", Behind::Kind(TokenKind::Tick), RANGE_ATTRIBUTE),
    (b"right", Behind::Kind(TokenKind::Tick), RANGE_ATTRIBUTE),
    (b"length", Behind::Kind(TokenKind::Tick), RANGE_ATTRIBUTE),
];

/// The same with `--wide`.
pub static WIDE_VALUES: [FormWord; 4] = [
    (b"to_integer", Behind::Anything, wide::STATIC_NUMBER),
    (b"", Behind::Kind(TokenKind::Tick), wide::ATTRIBUTE),
    (b"", Behind::Kind(TokenKind::Arrow), wide::ACTUAL),
    (b"", Behind::Opener(TokenKind::Map), wide::ACTUAL),
];

/// Types without a range, or with one that they don't take.
pub static ELEMENTS: [FormWord; 5] = [
    (b"std_logic_vector", Behind::Declared, VECTOR),
    (b"std_ulogic_vector", Behind::Declared, VECTOR),
    (b"unsigned", Behind::Declared, VECTOR),
    (b"std_logic", Behind::Declared, ELEMENT),
    (b"std_ulogic", Behind::Declared, ELEMENT),
];

/// The same with `--wide`.
pub static WIDE_ELEMENTS: [FormWord; 10] = [
    (b"std_logic_vector", Behind::Declared, wide::VECTOR),
    (
        b"std_logic_vector",
        Behind::Kind(TokenKind::Is),
        wide::VECTOR,
    ),
    (b"std_ulogic_vector", Behind::Declared, wide::VECTOR),
    (
        b"std_ulogic_vector",
        Behind::Kind(TokenKind::Is),
        wide::VECTOR,
    ),
    (b"unsigned", Behind::Declared, wide::VECTOR),
    (b"unsigned", Behind::Kind(TokenKind::Is), wide::VECTOR),
    (b"std_logic", Behind::Declared, wide::ELEMENT),
    (b"std_logic", Behind::Kind(TokenKind::Is), wide::ELEMENT),
    (b"std_ulogic", Behind::Declared, wide::ELEMENT),
    (b"std_ulogic", Behind::Kind(TokenKind::Is), wide::ELEMENT),
];

/// Relations.
pub static RELATIONS: [FormWord; 4] = [
    (b"<", Behind::Anything, ORDER),
    (b"<=", Behind::Anything, ORDER),
    (b">", Behind::Anything, ORDER),
    (b">=", Behind::Anything, ORDER),
];

/// Functions of packages.
pub static FUNCTIONS: [FormWord; 5] = [
    (b"rotate_left", Behind::Anything, FUNCTION),
    (b"rotate_right", Behind::Anything, FUNCTION),
    (b"minimum", Behind::Anything, FUNCTION),
    (b"maximum", Behind::Anything, FUNCTION),
    (b"std_match", Behind::Anything, FUNCTION),
];

/// Types of whole numbers and of truths.
pub static NUMBERS: [FormWord; 4] = [
    (b"integer", Behind::Anything, WHOLE_NUMBERS),
    (b"natural", Behind::Anything, WHOLE_NUMBERS),
    (b"positive", Behind::Anything, WHOLE_NUMBERS),
    (b"boolean", Behind::Anything, BOOLEAN),
];

/// The same with `--wide`.
pub static WIDE_NUMBERS: [FormWord; 4] = [
    (b"integer", Behind::Anything, wide::WHOLE_NUMBER),
    (b"natural", Behind::Anything, wide::WHOLE_NUMBER),
    (b"positive", Behind::Anything, wide::WHOLE_NUMBER),
    (b"boolean", Behind::Anything, wide::BOOLEAN),
];

/// Other types.
pub static OTHER_TYPES: [FormWord; 7] = [
    (b"signed", Behind::Anything, SIGNED),
    (b"bit", Behind::Anything, OTHER_TYPE),
    (b"bit_vector", Behind::Anything, OTHER_TYPE),
    (b"real", Behind::Anything, OTHER_TYPE),
    (b"string", Behind::Anything, OTHER_TYPE),
    (b"character", Behind::Anything, OTHER_TYPE),
    (b"time", Behind::Anything, OTHER_TYPE),
];

/// What is told by its place.
pub static PLACES: [FormWord; 6] = [
    (b"wait", Behind::Anything, WAIT_HEAD),
    (b"", Behind::Kind(TokenKind::When), CHOICE),
    (b"work", Behind::Kind(TokenKind::Use), PACKAGE),
    (b"", Behind::Kind(TokenKind::Library), LIBRARY),
    (b"", Behind::Kind(TokenKind::Dot), LIBRARY),
    (b"", Behind::Kind(TokenKind::Bar), CHOICE),
];

/// The same with `--wide`.
pub static WIDE_PLACES: [FormWord; 6] = [
    (b"wait", Behind::Anything, WAIT_HEAD),
    (b"", Behind::Kind(TokenKind::When), wide::CHOICE),
    (b"work", Behind::Kind(TokenKind::Use), PACKAGE),
    (b"", Behind::Kind(TokenKind::Library), LIBRARY),
    (b"", Behind::Kind(TokenKind::Dot), LIBRARY),
    (b"", Behind::Kind(TokenKind::Bar), wide::CHOICE),
];

/// Values of declarations.
pub static DEFAULTS: [FormWord; 1] = [(b"", Behind::Kind(TokenKind::Assign), DEFAULT)];

/// The same with `--wide`, and types that are declared.
pub static WIDE_DEFAULTS: [FormWord; 3] = [
    (b"", Behind::Kind(TokenKind::Assign), wide::DEFAULT),
    (b"", Behind::Declared, wide::MARK),
    (b"", Behind::Kind(TokenKind::Is), wide::MARK),
];
