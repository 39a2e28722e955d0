//! Changes of a text at one of its tokens.

ghost use Rattle.std.specs.Prelude.{◌≡◌, ◌≤◌, ◌++◌, IfOk, OnOk, length, map};
ghost use Rattle.vhdl_expected.specs.Changes as spec;

use crate::row::Change;
use std::alloc::{AllocError, Global};
use vhdl_lexer::{Token, TokenKind};
use vhdl_parser_rules::behind;

/// The tokens with a change at a place.
pub(crate) fn changed(
    alloc: Global,
    tokens: &[Token],
    place: usize,
    change: Change,
) -> Result<Vec<Token>, AllocError>
    requires { place ≤ length tokens.now }
    ensures { IfOk result (λ new. new.items ≡ spec.changed place (spec.change_of change.entry) tokens.now) }
{
    let (before, from) = tokens.split_at(place);
    let mut new = Vec::from_slice(alloc, before)?;
    let [token, ..] = from else {
        return Ok(new);
    };
    let (put, taken, _) = change;
    push_kinds(&mut new, *token, put)?;
    new.extend_from_slice(behind(from, taken))?;
    Ok(new)
}

/// Pushes tokens of these kinds in place of a token.
fn push_kinds(tokens: &mut Vec<Token>, token: Token, kinds: &[TokenKind]) -> Result<(), AllocError>
    ensures { OnOk result (tokens.new.items ≡ tokens.old.items ++ map (spec.with_kind token) kinds.now) }
{
    for kind in kinds {
        tokens.push(Token {
            kind: *kind,
            ..token
        })?;
    }
    Ok(())
}
