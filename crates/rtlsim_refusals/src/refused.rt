//! What is said where the lexer refuses a text.

ghost use Rattle.std.specs.Prelude.{◌≡◌};
ghost use Rattle.byte_streams.specs.Written.{Goes};
ghost use Rattle.rtlsim_refusals.specs.Refused as spec;
ghost use Rattle.vhdl_lexer.specs.Scan as scan;

use byte_streams::{Sink, push_text};
use fault_rules::{ElabRule, LexRule, Rule};
use vhdl_slips::{Said, push_quoted};
use vhdl_source_files::halves;

const MATCHING: Said = (
    "begins a matching operator, as ?= or ?/=, and these aren't read here",
    "write = or /=; where a '-' leaves an element open, compare the other elements alone",
);

const CHOICE: Said = (
    "isn't read here: a value is chosen by when and else",
    "write y <= b when a = '1' else c; for a ? b : c",
);

const INDEX: Said = (
    "isn't read here: an index stands in parentheses",
    "write v(3) for v[3], and v(7 downto 0) for v[7:0]",
);

const BRACES: Said = (
    "isn't read here: vectors are joined by &, and statements end with a word",
    "write a & b for {a, b}, and then, is, loop or begin before statements, and end behind them",
);

const NEGATION: Said = (
    "isn't read here: a value is negated by the word not",
    "write not a for ~a and !a, and a /= b for a != b",
);

const EXCLUSIVE_OR: Said = (
    "isn't read here: exclusive or is a word",
    "write a xor b for a ^ b",
);

const REMAINDER: Said = (
    "isn't read here: what is left of a division is given by the words mod and rem",
    "write n mod 2 of whole numbers; of unsigned take the last elements: u(0)",
);

/// A string with a byte in it that isn't printable ASCII.
const IN_STRING: Said = (
    "begins a string with a byte in it that isn't read here",
    "write printable ASCII alone, in strings too: no accents, no typographic quotes",
);

/// A byte order mark.
const MARK: Said = (
    "begins a byte order mark, which isn't read here",
    "save the file without it, as ASCII or as UTF-8 without BOM",
);

/// What is said of a rule of the lexer, by the text from the byte on.
pub(crate) fn said_refused(text: &[u8], rule: Rule) -> Said
    ensures { (result.0.now, result.1.now) ≡ spec.said_refused text.now rule }
{
    match rule {
        Rule::Lex(LexRule::BadByte) => said_of_byte(text, said_of(rule)),
        _ => said_of(rule),
    }
}

/// Of a byte that begins nothing that is read, by the text that begins with it.
fn said_of_byte(text: &[u8], usual: Said) -> Said
    ensures { (result.0.now, result.1.now) ≡ spec.said_of_byte text.now (usual.entry.0.now, usual.entry.1.now) }
{
    match text {
        [b'?', b'=' | b'/' | b'<' | b'>' | b'?', ..] => MATCHING,
        [b'?', ..] => CHOICE,
        [b'[', ..] => INDEX,
        [b'{', ..] => BRACES,
        [b'~' | b'!', ..] => NEGATION,
        [b'^', ..] => EXCLUSIVE_OR,
        [b'%', ..] => REMAINDER,
        [b'"', ..] => IN_STRING,
        [0xEF, 0xBB, 0xBF, ..] => MARK,
        _ => usual,
    }
}

/// What is said of a rule, behind the word or the lengths.
pub(crate) fn said_of(rule: Rule) -> Said
    ensures { (result.0.now, result.1.now) ≡ spec.said_of rule }
{
    let words = rule.words();
    match rule {
        Rule::Elab(ElabRule::Length) => (words.closing, words.help),
        _ => (words.middle, words.help),
    }
}

/// How many letters, digits and underscores the text begins with.
fn run(text: &[u8]) -> usize
    ensures { result ≡ scan.run text.now }
{
    text.iter()
        .take_while(|byte| byte.is_ascii_alphanumeric() || **byte == b'_')
        .count()
}

/// How many bytes stand at the front of a text where the lexer refuses it: a word, `/*` or a byte
/// that can be printed.
fn refused_len(text: &[u8]) -> usize
    ensures { result ≡ spec.refused_len text.now }
{
    match text {
        [b'/', b'*', ..] => 2,
        [b' '..=b'~', ..] => run(text).max(1),
        _ => 0,
    }
}

/// Writes what stands at the front of a text where the lexer refuses it.
pub(crate) fn push_refused<S: Sink>(text: &[u8], sink: &mut S)
    ensures { Goes (S.state sink.old) (S.state sink.new) (spec.refused text.now) }
{
    let (word, _) = halves(text, refused_len(text));
    if text.is_empty() {
        push_text(sink, b"the end of the text ");
    } else if word.is_empty() {
        push_text(sink, b"this byte ");
    } else {
        push_quoted(word, sink);
    }
}
