//! The first of two declarations of one name.

ghost use Rattle.std.specs.Prelude.{◌≡◌};
ghost use Rattle.vhdl_places.specs.Firsts as spec;
ghost use Rattle.vhdl_slips.specs.Words.{read_of};

use crate::regions::{entity_part, inner_region, last_unit, own_part};
use crate::uses::{Use, first_use, from_use};
use vhdl_lexer::{Token, TokenKind};
use vhdl_slips::{Lexed, begins, first_of, open_instance, past};

/// The first place at which a name stands in these tokens, in no component, process or generate.
fn first_in(text: &[u8], name: &[u8], tokens: &[Token]) -> Option<Token>
    ensures { result ≡ spec.first_in text.now name.now tokens.now }
{
    first_use(Use::Declared, &[name], Lexed { text, tokens })
}

/// The name of the first entity that is called so.
fn first_entity(text: &[u8], name: &[u8], tokens: &[Token]) -> Option<Token>
    ensures { result ≡ spec.first_entity text.now name.now tokens.now }
{
    let found = from_use(Use::Entity, &[name], text, tokens);
    first_of(past(1, found))
}

/// Whether the last of these tokens is the word entity.
fn names_entity(before: &[Token]) -> bool
    ensures { result ≡ spec.names_entity before.now }
{
    begins(
        TokenKind::Entity,
        past(before.len().saturating_sub(1), before),
    )
}

/// The first place in a unit, or in the entity of an architecture.
fn in_unit(source: Lexed<'_>, name: &[u8], unit: &[Token]) -> Option<Token>
    ensures { result ≡ spec.in_unit (read_of source.entry) name.now unit.now }
{
    match first_in(source.text, name, entity_part(source, unit)) {
        Some(token) => Some(token),
        None => first_in(source.text, name, own_part(unit)),
    }
}

/// The first place in the innermost region.
fn in_region(source: Lexed<'_>, name: &[u8], region: &[Token], before: &[Token]) -> Option<Token>
    ensures { result ≡ spec.in_region (read_of source.entry) name.now region.now before.now }
{
    if region.is_empty() {
        in_unit(source, name, last_unit(before))
    } else {
        first_in(source.text, name, region)
    }
}

/// Of a name that is declared or associated a second time behind these tokens of a source, the
/// first time, if it's found.
pub fn first_declared(source: Lexed<'_>, name: &[u8], before: &[Token]) -> Option<Token>
    ensures { result ≡ spec.first_declared (read_of source.entry) name.now before.now }
{
    if names_entity(before) {
        return first_entity(source.text, name, before);
    }
    let map = open_instance(before);
    if map.is_empty() {
        return in_region(source, name, inner_region(before), before);
    }
    let words = Lexed {
        text: source.text,
        tokens: map,
    };
    first_use(Use::Formal, &[name], words)
}
