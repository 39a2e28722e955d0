//! Faults that may follow from what was taken out, or are told already.

ghost use Rattle.std.specs.Prelude.{◌≡◌, ◌≤◌, false, length};
ghost use Rattle.vhdl_lexer.specs.Cut.{AreWithin};
ghost use Rattle.vhdl_names_further.specs.Known as spec;

use crate::naming::{around, is_from, is_name, name_at};
use crate::taking::{extent_of, is_unknown};
use vhdl_lexer::{Token, TokenKind};
use vhdl_names_rules::{NameFault, NameProblem};

/// Whether a fault of what is left of a source that has these tokens may follow from what was taken
/// out of its architecture, since it is one of a name whose declaration stood there; or is told
/// already, since the name stood there and the fault can't be taken out.
pub fn is_known(source: &[u8], tokens: &[Token], left: &[u8], fault: NameFault) -> bool
    requires { AreWithin source.now tokens.now }
    ensures { result ≡ spec.is_known source.now tokens.now left.now fault }
{
    match fault {
        NameFault::At { problem, at } => {
            let name = name_at(source, tokens, at);
            may_lack(problem)
                && is_found(source, left, name, at, stays(tokens, problem, at), tokens)
        }
        NameFault::NoMemory => false,
    }
}

/// Whether a name is so at fault whose declaration is gone.
fn may_lack(problem: NameProblem) -> bool
    ensures { result ≡ spec.may_lack problem }
{
    matches!(
        problem,
        NameProblem::Undeclared
            | NameProblem::WrongKind
            | NameProblem::NotVisible
            | NameProblem::LeftOut
    )
}

/// Whether what is wrong at this byte can't be taken out, and is a name, wherever it stands.
fn stays(tokens: &[Token], problem: NameProblem, at: usize) -> bool
    ensures { result ≡ spec.stays tokens.now problem at }
{
    extent_of(tokens, problem, at).is_none() && is_unknown(around(tokens, at), problem)
}

/// Whether the name was found in what was taken out, in these tokens before the byte, in its
/// architecture: as it is declared, or anywhere.
fn is_found(
    source: &[u8],
    left: &[u8],
    name: &[u8],
    at: usize,
    anywhere: bool,
    tokens: &[Token],
) -> bool
    requires { AreWithin source.now tokens.now }
    ensures { result ≡ spec.is_found source.now left.now name.now at anywhere anywhere false tokens.now }
{
    let mut others = tokens;
    let mut counts = anywhere;
    let mut found = false;
    while let [token, rest @ ..] = others {
        if is_from(at, *token) {
            return found;
        }
        found = found_behind(source, left, name, counts, found, *token);
        counts = counts_behind(anywhere, counts, token.kind);
        others = rest;
    }
    found
}

/// Whether a name counts behind a token: where names are declared, or anywhere.
fn counts_behind(anywhere: bool, counts: bool, kind: TokenKind) -> bool
    ensures { result ≡ spec.counts_behind anywhere counts kind }
{
    match kind {
        TokenKind::Signal | TokenKind::Constant => true,
        TokenKind::Colon => anywhere,
        _ => counts,
    }
}

/// Whether the name was found so far, behind this token, where it counts or doesn't.
fn found_behind(
    source: &[u8],
    left: &[u8],
    name: &[u8],
    counts: bool,
    found: bool,
    token: Token,
) -> bool
    requires { (token.start ≤ token.end) × (token.end ≤ length source.now) }
    ensures { result ≡ spec.found_behind source.now left.now name.now counts found token }
{
    !matches!(token.kind, TokenKind::Architecture)
        && (found || counts && is_out(left, token) && is_name(source, name, token))
}

/// Whether a token was taken out.
fn is_out(left: &[u8], token: Token) -> bool
    ensures { result ≡ spec.is_out left.now token }
{
    let start = token.start as usize;
    start < left.len() && left[start] == b' '
}
