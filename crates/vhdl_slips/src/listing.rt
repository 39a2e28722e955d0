//! Names of a text, listed.

ghost use Rattle.std.specs.Prelude.{◌≡◌};
ghost use Rattle.byte_streams.specs.Written.{Goes};
ghost use Rattle.vhdl_slips.specs.Interfaces as interfaces;
ghost use Rattle.vhdl_slips.specs.Listings as spec;
ghost use Rattle.vhdl_slips.specs.Listings.{Tells};

use crate::interface::formal_at;
use crate::lexed::{Lexed, is_same_kind, text_of};
use byte_streams::{Sink, push_text};
use vhdl_lexer::{Token, TokenKind};

/// What is listed.
#[derive(Clone, Copy)]
pub enum Listing {
    /// The entities that a source shows an architecture of.
    Entities,
    /// The generics of an entity.
    Generics,
    /// Its ports.
    Ports,
}

/// Lists the names that stand in these tokens, in order.
pub fn push_names<S: Sink>(listing: Listing, words: Lexed<'_>, sink: &mut S)
    ensures { Goes (S.state sink.old) (S.state sink.new)
        (spec.names_listed listing words.entry.text.now words.entry.tokens.now) }
{
    let mut is_first = true;
    let mut left = words.tokens;
    while let [_, rest @ ..] = left {
        is_first = push_at(listing, words.text, left, is_first, sink);
        left = rest;
    }
    push_text(sink, closing(listing, is_first));
}

/// Writes the name that is listed where these tokens stand, if there is one, and answers whether
/// there is still none.
fn push_at<S: Sink>(
    listing: Listing,
    text: &[u8],
    tokens: &[Token],
    is_first: bool,
    sink: &mut S,
) -> bool
    ensures { Tells listing (spec.names_at listing text.now tokens.now) is_first
        (S.state sink.old) result (S.state sink.new) }
{
    match name_at(listing, tokens) {
        Some(name) => {
            push_text(sink, separator(listing, is_first));
            push_text(sink, text_of(text, name));
            false
        }
        None => is_first,
    }
}

/// The name that is listed where these tokens stand.
fn name_at(listing: Listing, tokens: &[Token]) -> Option<Token>
    ensures { result ≡ spec.name_at listing tokens.now }
{
    match listing {
        Listing::Entities => entity_at(tokens),
        Listing::Generics | Listing::Ports => formal_at(tokens),
    }
}

/// The name of the entity whose architecture the tokens begin with: `architecture X of NAME`.
fn entity_at(tokens: &[Token]) -> Option<Token>
    ensures { result ≡ interfaces.entity_at tokens.now }
{
    match tokens {
        [first, _, third, name, ..] => {
            if is_same_kind(first.kind, TokenKind::Architecture)
                && is_same_kind(third.kind, TokenKind::Of)
            {
                Some(*name)
            } else {
                None
            }
        }
        _ => None,
    }
}

/// What stands before a name.
fn separator(listing: Listing, is_first: bool) -> &'static [u8]
    ensures { result.now ≡ spec.separator listing is_first }
{
    if is_first { opening(listing) } else { b", " }
}

/// What stands before the first.
fn opening(listing: Listing) -> &'static [u8]
    ensures { result.now ≡ spec.opening listing }
{
    match listing {
        Listing::Entities => b"entities: ",
        Listing::Generics => b"its generics are ",
        Listing::Ports => b"its ports are ",
    }
}

/// What stands behind the last, or where there is none.
fn closing(listing: Listing, is_first: bool) -> &'static [u8]
    ensures { result.now ≡ spec.closing listing is_first }
{
    match (listing, is_first) {
        (Listing::Entities, true) => b"",
        (Listing::Entities, false) => b"\n",
        (Listing::Generics | Listing::Ports, true) => b"it has none",
        (Listing::Generics | Listing::Ports, false) => b"",
    }
}
