//! Which form stands at a token where nothing of the language can stand.

ghost use Rattle.std.specs.Prelude.{◌≡◌, map, option_map};
ghost use Rattle.vhdl_slips.specs.Forms as spec;

use crate::by_language::{left_out, slips, unread};
use crate::form::{Behind, FormWord, OTHER, Said};
use crate::lexed::{is_same_kind, is_same_word};
use crate::slip::SLIP;
use vhdl_lexer::{Language, Token, TokenKind};

/// What stands before a token.
#[derive(Clone, Copy)]
pub(crate) struct Context {
    /// The kind of the token before it.
    last: Option<TokenKind>,
    /// Whether an index is open, which goes from a name's `(` to the next `)`.
    in_index: bool,
    /// The kind of the last token outside of an index.
    word: Option<TokenKind>,
    /// The kind of the one before that.
    opener: Option<TokenKind>,
    /// Whether nothing stands before it in its line.
    begins_line: bool,
    /// Whether the statements of an architecture have begun.
    has_begun: bool,
    /// Whether a process isn't ended.
    in_process: bool,
}

/// What stands at a word where no file of the language goes on, behind these tokens.
pub fn unexpected_form(language: Language, before: &[Token], begins_line: bool, word: &[u8]) -> Said
    ensures { (result.0.now, result.1.now) ≡ spec.unexpected_form language before.now begins_line word.now }
{
    let context = context_of(before, begins_line);
    let form = form_among(&unread(language), context, word, SLIP);
    form_among(&slips(language), context, word, form)
}

/// What stands where the language leaves something out, behind these tokens.
pub fn left_out_form(language: Language, before: &[Token], word: &[u8]) -> Said
    ensures { (result.0.now, result.1.now) ≡ spec.left_out_form language before.now word.now }
{
    form_among(&left_out(language), context_of(before, false), word, OTHER)
}

/// The form of a word in the first of these tables that has it, or another one.
fn form_among(mut tables: &[&[FormWord]], context: Context, word: &[u8], fallback: Said) -> Said
    ensures { (result.0.now, result.1.now) ≡ spec.form_among (map spec.words_of tables.entry.now) context
        word.now (fallback.entry.0.now, fallback.entry.1.now) }
{
    while let [words, rest @ ..] = tables {
        if let Some(said) = form_in(words, context, word) {
            return said;
        }
        tables = rest;
    }
    fallback
}

/// The form of a word in a table.
fn form_in(mut words: &[FormWord], context: Context, word: &[u8]) -> Option<Said>
    ensures { option_map spec.said_of result ≡ spec.form_in (spec.words_of words.entry) context word.now }
{
    while let [first, rest @ ..] = words {
        if fits(*first, context, word) {
            return Some(first.2);
        }
        words = rest;
    }
    None
}

/// Whether a form begins at a word.
fn fits(form: FormWord, context: Context, word: &[u8]) -> bool
    ensures { result ≡ spec.fits form.entry.0.now form.entry.1 context word.now }
{
    (form.0.is_empty() || is_same_word(form.0, word)) && holds(form.1, context)
}

/// Whether this stands before a token.
fn holds(behind: Behind, context: Context) -> bool
    ensures { result ≡ spec.holds behind context }
{
    match behind {
        Behind::Anything => true,
        Behind::Kind(kind) => is_kind(context.last, kind),
        Behind::Operand => ends_operand(context.last),
        Behind::Declared => is_declared(context.last),
        Behind::Opener(kind) => !context.in_index && is_kind(context.opener, kind),
        Behind::Index(kind) => context.in_index && is_kind(context.opener, kind),
        Behind::Target => is_target(context),
        Behind::NewLine => context.begins_line && ends_statement(context),
        Behind::Instance => is_instance(context),
        Behind::Concurrent => is_concurrent(context),
    }
}

/// Whether a name stands before the token with which a statement begins, or a type in a
/// declaration.
fn is_target(context: Context) -> bool
    ensures { result ≡ spec.is_target context }
{
    !context.in_index && is_kind(context.word, TokenKind::Identifier) && opens(context.opener)
}

/// Whether a type stands behind it.
fn is_declared(last: Option<TokenKind>) -> bool
    ensures { result ≡ spec.is_declared last }
{
    is_kind(last, TokenKind::Colon) || is_kind(last, TokenKind::In) || is_kind(last, TokenKind::Out)
}

/// Whether a label and a name stand before it, and an index that is open or has just been closed.
fn is_instance(context: Context) -> bool
    ensures { result ≡ spec.is_instance context }
{
    (context.in_index || is_kind(context.last, TokenKind::RightParen))
        && is_kind(context.opener, TokenKind::Colon)
        && is_concurrent(context)
}

/// Whether a statement of an architecture stands there, or goes on.
fn is_concurrent(context: Context) -> bool
    ensures { result ≡ spec.is_concurrent context }
{
    context.has_begun && !context.in_process
}

// ---- what stands before a token

/// These tokens.
fn context_of(mut tokens: &[Token], begins_line: bool) -> Context
    ensures { result ≡ spec.context_of begins_line tokens.entry.now }
{
    let mut context = Context {
        last: None,
        in_index: false,
        word: None,
        opener: None,
        begins_line,
        has_begun: false,
        in_process: false,
    };
    while let [token, rest @ ..] = tokens {
        context = context_behind(context, token.kind);
        tokens = rest;
    }
    context
}

/// One token more.
fn context_behind(context: Context, kind: TokenKind) -> Context
    ensures { result ≡ spec.context_behind context kind }
{
    let last = Some(kind);
    if context.in_index || opens_index(context, kind) {
        Context {
            last,
            in_index: !is_same_kind(kind, TokenKind::RightParen),
            ..context
        }
    } else {
        Context {
            last,
            word: last,
            opener: context.word,
            has_begun: has_begun_behind(context, kind),
            in_process: in_process_behind(context, kind),
            ..context
        }
    }
}

/// Whether the statements of an architecture have begun behind this token: with its begin, up to
/// the next unit.
fn has_begun_behind(context: Context, kind: TokenKind) -> bool
    ensures { result ≡ spec.has_begun_behind context kind }
{
    is_same_kind(kind, TokenKind::Begin) || (context.has_begun && !begins_unit(context, kind))
}

/// Whether a process isn't ended behind this token.
fn in_process_behind(context: Context, kind: TokenKind) -> bool
    ensures { result ≡ spec.in_process_behind context kind }
{
    if is_same_kind(kind, TokenKind::Process) {
        !is_kind(context.last, TokenKind::End)
    } else {
        context.in_process && !begins_unit(context, kind)
    }
}

/// Whether an entity or architecture begins with this token; an instance names its entity behind a
/// colon.
fn begins_unit(context: Context, kind: TokenKind) -> bool
    ensures { result ≡ spec.begins_unit context kind }
{
    is_same_kind(kind, TokenKind::Architecture)
        || (is_same_kind(kind, TokenKind::Entity) && !is_kind(context.last, TokenKind::Colon))
}

/// Whether a name's index opens with this token.
fn opens_index(context: Context, kind: TokenKind) -> bool
    ensures { result ≡ spec.opens_index context kind }
{
    is_same_kind(kind, TokenKind::LeftParen) && is_kind(context.last, TokenKind::Identifier)
}

fn is_kind(last: Option<TokenKind>, kind: TokenKind) -> bool
    ensures { result ≡ spec.is_kind last kind }
{
    match last {
        Some(last) => is_same_kind(last, kind),
        None => false,
    }
}

/// Whether a name, a literal or `)` ends with it.
fn ends_operand(last: Option<TokenKind>) -> bool
    ensures { result ≡ spec.ends_operand last }
{
    matches!(
        last,
        Some(
            TokenKind::Identifier
                | TokenKind::Integer
                | TokenKind::Character
                | TokenKind::String
                | TokenKind::BitString
                | TokenKind::RightParen
        )
    )
}

/// Whether a declaration, a statement or its head may end with the last token.
fn ends_statement(context: Context) -> bool
    ensures { result ≡ spec.ends_statement context }
{
    ends_operand(context.last) || is_last_word(context.last) || is_end(context)
}

/// Whether it is a word with which a statement may end.
fn is_last_word(last: Option<TokenKind>) -> bool
    ensures { result ≡ spec.is_last_word last }
{
    matches!(
        last,
        Some(TokenKind::End | TokenKind::Null | TokenKind::Open | TokenKind::All)
    )
}

/// Whether the word behind an `end` is the last.
fn is_end(context: Context) -> bool
    ensures { result ≡ spec.is_end context }
{
    is_kind(context.opener, TokenKind::End) && !is_kind(context.last, TokenKind::Semicolon)
}

/// Whether a statement or the type in a declaration may begin behind it.
fn opens(before: Option<TokenKind>) -> bool
    ensures { result ≡ spec.opens before }
{
    matches!(
        before,
        Some(
            TokenKind::Semicolon
                | TokenKind::Colon
                | TokenKind::Arrow
                | TokenKind::Then
                | TokenKind::Else
                | TokenKind::Begin
                | TokenKind::Loop
                | TokenKind::Generate
                | TokenKind::Is
        )
    )
}
