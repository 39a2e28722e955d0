//! What stands before a token.

ghost use Rattle.std.specs.Prelude.{◌≡◌, ◌≤◌, ◌<◌, ◌^◌, nat_le, if◌then◌else◌, length};
ghost use Rattle.vhdl_parser_further.specs.Statements as spec;

use crate::kind::{is_boundary, opens};
use crate::unit::{begins_architecture, begins_entity};
use vhdl_lexer::{Token, TokenKind, depth_behind, is_end};

/// What stands before a token: of which unit it is, and where the statements begin in which it
/// stands.
#[derive(Clone, Copy)]
pub struct Place {
    /// How many tokens stand before.
    pub read: usize,
    /// Whether the token stands in an architecture, whose own `end` isn't before.
    pub in_architecture: bool,
    /// Whether the architecture's `begin` stands before.
    pub begun: bool,
    /// How many parentheses and heads of processes are open.
    pub depth: usize,
    /// How many statements and declarations with an `end` are open.
    pub opened: usize,
    /// The kind of the token before.
    pub last: TokenKind,
    /// Behind how many tokens the outermost statement or declaration begins in which the token
    /// stands.
    pub outermost: usize,
    /// Behind how many tokens the innermost one begins.
    pub innermost: usize,
}

/// The place of the first token that starts at the byte or behind it.
#[tactic(auto, unfolding(crate::specs::Statements::place_of))]
pub fn place_of(tokens: &[Token], at: usize) -> Place
    ensures value { result ≡ spec.place_of at tokens.now }
    ensures within { result.opened ≤ length tokens.now }
{
    let mut left = tokens;
    let mut place = first(false, 0, TokenKind::Semicolon);
    while let [token, rest @ ..] = left {
        if is_from(at, token.start) {
            return place;
        }
        place = behind(place, token.kind, left);
        left = rest;
    }
    place
}

/// Whether a token that starts at byte `start` stands at byte `at` or behind it.
fn is_from(at: usize, start: u32) -> bool
    ensures { result ≡ nat_le at start }
{
    at <= start as usize
}

/// The place behind the token of this kind with which these begin.
fn behind(place: Place, kind: TokenKind, tokens: &[Token]) -> Place
    requires read { place.read < 2 ^ 63 }
    requires depth { place.depth < 2 ^ 63 }
    requires opened { place.opened < 2 ^ 63 }
    ensures { result ≡ spec.behind place kind tokens.now }
{
    if begins_architecture(tokens) {
        first(true, place.read + 1, kind)
    } else if begins_entity(tokens) {
        first(false, place.read + 1, kind)
    } else {
        step(place, kind)
    }
}

/// The place behind so many tokens, the last of which begins a unit.
fn first(is_architecture: bool, read: usize, kind: TokenKind) -> Place
    requires { read ≤ 2 ^ 63 }
    ensures { result ≡ spec.first is_architecture read kind }
{
    Place {
        read,
        in_architecture: is_architecture,
        begun: false,
        depth: 0,
        opened: 0,
        last: kind,
        outermost: read + 4,
        innermost: read + 4,
    }
}

/// The place behind one token more of a unit.
fn step(place: Place, kind: TokenKind) -> Place
    requires read { place.read < 2 ^ 63 }
    requires depth { place.depth < 2 ^ 63 }
    requires opened { place.opened < 2 ^ 63 }
    ensures { result ≡ spec.step place kind }
{
    let read = place.read + 1;
    Place {
        read,
        in_architecture: in_behind(place, kind),
        begun: begun_behind(place, kind),
        depth: depth_behind(place.depth, place.last, kind),
        opened: open_behind(place.opened, place.last, kind),
        last: kind,
        outermost: chosen(outer_behind(place, kind), read, place.outermost),
        innermost: chosen(begins_behind(place, kind), read, place.innermost),
    }
}

fn chosen(begins: bool, here: usize, before: usize) -> usize
    ensures { result ≡ (if begins then here else before) }
{
    if begins { here } else { before }
}

/// Whether what follows the token stands in the architecture still.
fn in_behind(place: Place, kind: TokenKind) -> bool
    ensures { result ≡ spec.in_behind place kind }
{
    place.in_architecture && !(place.opened == 0 && is_end(kind))
}

/// Whether the `begin` of the architecture stands before what follows the token.
fn begun_behind(place: Place, kind: TokenKind) -> bool
    ensures { result ≡ spec.begun_behind place kind }
{
    place.begun || place.opened == 0 && matches!(kind, TokenKind::Begin)
}

/// Whether a statement or declaration begins behind the token.
fn begins_behind(place: Place, kind: TokenKind) -> bool
    requires { place.depth < 2 ^ 63 }
    ensures { result ≡ spec.begins_behind place kind }
{
    depth_behind(place.depth, place.last, kind) == 0 && is_boundary(place.last, kind)
}

/// Whether one begins there and nothing with an `end` is open.
fn outer_behind(place: Place, kind: TokenKind) -> bool
    requires depth { place.depth < 2 ^ 63 }
    requires opened { place.opened < 2 ^ 63 }
    ensures { result ≡ spec.outer_behind place kind }
{
    open_behind(place.opened, place.last, kind) == 0 && begins_behind(place, kind)
}

/// How many statements and declarations with an `end` are open behind a token, where so many are
/// before it.
pub fn open_behind(opened: usize, last: TokenKind, kind: TokenKind) -> usize
    requires { opened < 2 ^ 63 }
    ensures { result ≡ spec.open_behind opened last kind }
{
    vhdl_lexer::opened_behind(opened, kind, opens(last, kind))
}
