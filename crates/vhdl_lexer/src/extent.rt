//! What is taken out with a fault.

ghost use Rattle.std.specs.Prelude.{◌≡◌, ◌<◌, ◌^◌, nat_le, if◌then◌else◌};
ghost use Rattle.vhdl_lexer.specs.Extents as spec;

use crate::kind::{is_boundary, is_end, is_left, is_right, is_semicolon, may_go, opens};
use crate::token::{Token, TokenKind};

/// Bytes of a source, from `start` up to `end`, both counted from the source's first byte.
#[derive(Clone, Copy)]
pub struct Extent {
    pub start: u32,
    pub end: u32,
}

/// What is taken out with a fault at byte `at` of the source that has these tokens: the innermost
/// statement in which the fault stands, or the declaration, and for what stands in the head of a
/// process or in its wait that process; `None` where it stands in what the rest may stand on.
pub fn statement_at(tokens: &[Token], at: usize) -> Option<Extent>
    ensures { result ≡ spec.statement_at tokens.now at }
{
    taken_from(beginning(tokens, at))
}

/// The tokens from where the innermost statement or declaration begins that has the byte.
fn beginning(tokens: &[Token], at: usize) -> &[Token]
    ensures { result.now ≡ spec.beginning at 0 TokenKind.Semicolon tokens.now tokens.now }
{
    let mut here = tokens;
    let mut left = tokens;
    let mut depth: usize = 0;
    let mut last = TokenKind::Semicolon;
    while let [token, rest @ ..] = left {
        if is_from(at, token.start) {
            return here;
        }
        depth = depth_behind(depth, last, token.kind);
        here = chosen(begins_behind(depth, last, token.kind, rest), rest, here);
        last = token.kind;
        left = rest;
    }
    here
}

/// Whether a token that starts at byte `start` stands at byte `at` or behind it.
fn is_from(at: usize, start: u32) -> bool
    ensures { result ≡ nat_le at start }
{
    at <= start as usize
}

/// The rest behind a token where a statement or declaration begins there, else what was begun
/// before.
fn chosen<'a>(begins: bool, rest: &'a [Token], here: &'a [Token]) -> &'a [Token]
    ensures { result.now ≡ (if begins then rest.now else here.now) }
{
    if begins { rest } else { here }
}

/// How many parentheses are open behind a token, where so many are before it.
pub fn depth_behind(depth: usize, last: TokenKind, kind: TokenKind) -> usize
    requires { depth < 2 ^ 63 }
    ensures { result ≡ spec.depth_behind depth last kind }
{
    if is_left(last, kind) {
        depth + 1
    } else if is_right(kind) {
        depth.saturating_sub(1)
    } else {
        depth
    }
}

/// Whether a statement or declaration may begin behind a token, behind which so many parentheses
/// are open and these tokens are ahead. A wait is part of its process.
pub fn begins_behind(depth: usize, last: TokenKind, kind: TokenKind, ahead: &[Token]) -> bool
    ensures { result ≡ spec.begins_behind depth last kind ahead.now }
{
    depth == 0 && is_boundary(last, kind) && !waits(ahead)
}

/// Whether a wait stands ahead.
fn waits(ahead: &[Token]) -> bool
    ensures { result ≡ spec.waits ahead.now }
{
    match ahead {
        [token, ..] => matches!(token.kind, TokenKind::Wait),
        [] => false,
    }
}

/// The statement or declaration with which these tokens begin, if it may be taken out.
fn taken_from(tokens: &[Token]) -> Option<Extent>
    ensures { result ≡ spec.taken_from tokens.now }
{
    let first = tokens.first()?;
    if !may_go(first.kind) {
        return None;
    }
    let end = end_of(tokens)?;
    Some(Extent {
        start: first.start,
        end,
    })
}

/// The byte behind the first `;` that stands in no statement with an `end`.
fn end_of(tokens: &[Token]) -> Option<u32>
    ensures { result ≡ spec.end_behind 0 TokenKind.Semicolon tokens.now }
{
    let mut left = tokens;
    let mut opened: usize = 0;
    let mut last = TokenKind::Semicolon;
    while let [token, rest @ ..] = left {
        if ends_here(opened, token.kind) {
            return Some(token.end);
        }
        opened = open_behind(opened, last, token.kind);
        last = token.kind;
        left = rest;
    }
    None
}

/// Whether a statement or declaration ends with a token, where so many statements with an `end` are
/// open.
fn ends_here(opened: usize, kind: TokenKind) -> bool
    ensures { result ≡ spec.ends_here opened kind }
{
    opened == 0 && is_semicolon(kind)
}

fn open_behind(opened: usize, last: TokenKind, kind: TokenKind) -> usize
    requires { opened < 2 ^ 63 }
    ensures { result ≡ spec.open_behind opened last kind }
{
    opened_behind(opened, kind, opens(last, kind))
}

/// How many statements with an `end` are open behind a token, where so many are before it, by
/// whether it opens one.
pub fn opened_behind(opened: usize, kind: TokenKind, opens: bool) -> usize
    requires { opened < 2 ^ 63 }
    ensures { result ≡ spec.opened_behind opened kind opens }
{
    if is_end(kind) {
        opened.saturating_sub(1)
    } else if opens {
        opened + 1
    } else {
        opened
    }
}
