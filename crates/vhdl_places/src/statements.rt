//! The tokens of a concurrent statement.

ghost use Rattle.std.specs.Prelude.{◌≡◌};
ghost use Rattle.vhdl_places.specs.Statements as spec;

use vhdl_lexer::{Token, TokenKind};
use vhdl_slips::{begins, from, has, in_parentheses, past, up_to};

/// The tokens of the concurrent statement with which these begin: a process ends before the word
/// process once more, and another statement before its first `;`.
pub fn statement(tokens: &[Token]) -> &[Token]
    ensures { result.now ≡ spec.statement tokens.now }
{
    if begins(TokenKind::Process, tokens) {
        up_to(TokenKind::Process, past(1, tokens))
    } else {
        up_to(TokenKind::Semicolon, tokens)
    }
}

/// The names to which a process is sensitive; nothing where an index stands among them.
pub(crate) fn sensitivity(tokens: &[Token]) -> &[Token]
    ensures { result.now ≡ spec.sensitivity tokens.now }
{
    if begins(TokenKind::Process, tokens) {
        in_parentheses(past(1, tokens))
    } else {
        &[]
    }
}

/// What stands from a process's `begin` on, and all of another statement.
pub fn body(tokens: &[Token]) -> &[Token]
    ensures { result.now ≡ spec.body tokens.now }
{
    if begins(TokenKind::Process, tokens) {
        from(TokenKind::Begin, statement(tokens))
    } else {
        statement(tokens)
    }
}

/// Whether these tokens are the rest of a process: the next word process is that of its end.
fn is_in_process(tokens: &[Token]) -> bool
    ensures { result ≡ spec.is_in_process tokens.now }
{
    let before = up_to(TokenKind::Process, tokens);
    has(TokenKind::Process, tokens)
        && begins(TokenKind::End, past(before.len().saturating_sub(1), before))
}

/// What stands behind the statement of which these tokens are the rest.
pub(crate) fn behind_statement(tokens: &[Token]) -> &[Token]
    ensures { result.now ≡ spec.behind_statement tokens.now }
{
    if is_in_process(tokens) {
        past(1, from(TokenKind::Process, tokens))
    } else {
        from(TokenKind::Semicolon, tokens)
    }
}
