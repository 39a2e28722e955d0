//! The words that are meant by others.

ghost use Rattle.std.specs.Prelude.{◌≡◌, map};
ghost use Rattle.vhdl_expected.specs.Told as spec;

use vhdl_lexer::TokenKind;
use vhdl_parser_rules::Said;

/// A word: how it is written; the tokens that stand for it, and in place of how many; and what is
/// told where it is meant by the refused token, or by one before that.
pub type Word = (&'static str, &'static [TokenKind], usize, Said, Said);

/// What helps where a word is meant by the refused token.
const HERE: &str = "write that word in place of it";

/// What helps where a word is meant by a token before that.
const BEFORE: &str = "write that word in place of the name before it that is nearly the same";

/// What helps where two words stand for one.
const ONE_WORD: &str = "write that word, as one, in place of the two";

macro_rules! word {
    ($spelled:literal, $meant:literal, $($kind:ident)+) => {
        (
            $spelled,
            &[$(TokenKind::$kind),+],
            1,
            (concat!("is no reserved word: did you mean `", $meant, "`?"), HERE),
            (concat!("can't stand here: did you mean `", $meant, "` before it?"), BEFORE),
        )
    };
}

macro_rules! one_word {
    ($spelled:literal, $meant:literal, $kind:ident) => {
        (
            $spelled,
            &[TokenKind::$kind],
            2,
            (concat!("is no reserved word: did you mean `", $meant, "`?"), ONE_WORD),
            (concat!("can't stand here: did you mean `", $meant, "` for it and the name before it?"), ONE_WORD),
        )
    };
}

macro_rules! edge {
    ($spelled:literal) => {
        (
            $spelled,
            &[
                TokenKind::Identifier,
                TokenKind::LeftParen,
                TokenKind::Identifier,
                TokenKind::RightParen,
            ],
            2,
            ("can't stand here: a clock in parentheses is expected behind it", EDGE),
            ("can't stand here: parentheses are expected around it", EDGE),
        )
    };
}

const EDGE: &str = "write rising_edge(clk), or falling_edge(clk)";

const TICK: Said = (
    "can't stand here: a `'` is expected before it",
    "write clk'event",
);

const TICK_BEFORE: Said = (
    "can't stand here: a `'` is expected before the name before it",
    "write clk'event",
);

const RESOLVED: Said = (
    "isn't read here: no resolution function stands before a type",
    "write std_logic for resolved std_ulogic",
);

const RESOLVED_BEFORE: Said = (
    "can't stand here: no resolution function is read before a type",
    "write std_logic for resolved std_ulogic",
);

const FORCE: Said = (
    "isn't read here: no value is forced upon a signal",
    "assign the value alone",
);

const FORCE_BEFORE: Said = (
    "can't stand here: no value is forced upon a signal",
    "assign the value alone, without the word before it",
);

/// The words of the grammar from a to elsif, but for those between operands: a name that is near to
/// an operator, as reg to rem, mostly stands behind a `;` that is missing.
pub static FROM_A: [Word; 10] = [
    word!("all", "all", All),
    word!("architecture", "architecture", Architecture),
    word!("begin", "begin", Begin),
    word!("case", "case", Case),
    word!("component", "component", Component),
    word!("constant", "constant", Constant),
    word!("downto", "downto", Downto),
    one_word!("down", "downto", Downto),
    word!("elsif", "elsif", Elsif),
    one_word!("els", "elsif", Elsif),
];

/// Those from else to is.
pub static FROM_E: [Word; 10] = [
    word!("else", "else", Else),
    word!("end", "end", End),
    word!("entity", "entity", Entity),
    word!("for", "for", For),
    word!("generate", "generate", Generate),
    word!("generic", "generic", Generic),
    word!("if", "if", If),
    word!("in", "in", In),
    word!("input", "in", In),
    word!("is", "is", Is),
];

/// Those from l to output.
pub static FROM_L: [Word; 10] = [
    word!("library", "library", Library),
    word!("loop", "loop", Loop),
    word!("map", "map", Map),
    // In a relation: so a name before an assignment, as nxt, isn't taken for it.
    word!("not", "not", Integer Equal Not),
    word!("null", "null", Null),
    word!("of", "of", Of),
    word!("open", "open", Open),
    word!("others", "others", Others),
    word!("out", "out", Out),
    word!("output", "out", Out),
];

/// Those from p to w.
pub static FROM_P: [Word; 11] = [
    word!("port", "port", Port),
    word!("process", "process", Process),
    word!("select", "select", Select),
    word!("signal", "signal", Signal),
    word!("then", "then", Then),
    word!("to", "to", To),
    word!("type", "type", Type),
    word!("use", "use", Use),
    word!("variable", "variable", Variable),
    word!("when", "when", When),
    word!("with", "with", With),
];

/// Ends in one word.
pub static ENDS: [Word; 8] = [
    word!("endif", "end if", End If),
    word!("endcase", "end case", End Case),
    word!("endloop", "end loop", End Loop),
    word!("endprocess", "end process", End Process),
    word!("endgenerate", "end generate", End Generate),
    word!("endcomponent", "end component", End Component),
    word!("endentity", "end entity", End Entity),
    word!("endarchitecture", "end architecture", End Architecture),
];

/// Maps and bounds in one word, words that are written in two, and names that aren't read.
pub static JOINED: [Word; 13] = [
    word!("downto0", "downto ..", Downto Integer),
    word!("to0", "to ..", To Integer),
    word!("portmap", "port map", Port Map),
    word!("genericmap", "generic map", Generic Map),
    edge!("rising_edge"),
    edge!("falling_edge"),
    edge!("posedge"),
    edge!("negedge"),
    one_word!("rising", "rising_edge", Identifier),
    one_word!("falling", "falling_edge", Identifier),
    (
        "event",
        &[TokenKind::Tick, TokenKind::Identifier],
        1,
        TICK,
        TICK_BEFORE,
    ),
    ("resolved", &[], 1, RESOLVED, RESOLVED_BEFORE),
    ("force", &[], 1, FORCE, FORCE_BEFORE),
];

/// The tables of words that are suggested; of two that are meant the first counts with which the
/// text goes on.
pub(crate) fn words() -> [&'static [Word]; 6]
    ensures { map spec.words_of result ≡ spec.words }
{
    [&FROM_A, &FROM_E, &FROM_L, &FROM_P, &ENDS, &JOINED]
}
