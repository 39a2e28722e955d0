//! The association that connects a port to what an instance drives.

ghost use Rattle.std.specs.Prelude.{◌≡◌, map};
ghost use Rattle.vhdl_places.specs.Maps as spec;
ghost use Rattle.vhdl_slips.specs.Words.{read_of};

use crate::uses::{Use, first_use, from_use};
use vhdl_lexer::{Token, TokenKind};
use vhdl_slips::{
    Lexed, associations, begins, entity_of, first_of, formals, from, interface_of, labelled, past,
    text_of, up_to,
};

/// An instance's own label, behind those of generates.
fn own_label(label: &[u8]) -> &[u8]
    ensures { result.now ≡ spec.own_label label.now }
{
    let mut found = label;
    let mut bytes = label;
    while let [byte, rest @ ..] = bytes {
        if *byte == b'.' {
            found = rest;
        }
        bytes = rest;
    }
    found
}

/// What stands in the architecture of this entity from its `begin` on.
pub(crate) fn architecture_of<'a>(text: &[u8], entity: &[u8], tokens: &'a [Token]) -> &'a [Token]
    ensures { result.now ≡ spec.architecture_of text.now entity.now tokens.now }
{
    let found = from_use(Use::Architecture, &[entity], text, tokens);
    from(
        TokenKind::Begin,
        up_to(TokenKind::Architecture, past(1, found)),
    )
}

/// What stands from this label on.
fn from_label<'a>(text: &[u8], label: &[u8], tokens: &'a [Token]) -> &'a [Token]
    ensures { result.now ≡ spec.from_label text.now label.now tokens.now }
{
    from_use(Use::Label, &[label], text, tokens)
}

/// What stands from this label on; nothing where several statements have it.
fn from_sole<'a>(text: &[u8], label: &[u8], tokens: &'a [Token]) -> &'a [Token]
    ensures { result.now ≡ spec.from_sole text.now label.now tokens.now }
{
    let found = from_label(text, label, tokens);
    if from_label(text, label, past(1, found)).is_empty() {
        found
    } else {
        &[]
    }
}

/// The instance of this label in the architecture of this entity; nothing where several have it.
pub fn instance_in<'a>(source: Lexed<'a>, entity: &[u8], label: &[u8]) -> &'a [Token]
    ensures { result.now ≡ spec.instance_in (read_of source.entry) entity.now label.now }
{
    let statements = architecture_of(source.text, entity, source.tokens);
    from_sole(source.text, own_label(label), statements)
}

/// The name of an instance's entity, empty where there is none.
pub fn entity_name<'a>(text: &'a [u8], instance: &[Token]) -> &'a [u8]
    ensures { result.now ≡ spec.entity_name text.now instance.now }
{
    match entity_of(labelled(instance)) {
        Some(name) => text_of(text, name),
        None => &[],
    }
}

/// The ports of an instance's entity.
fn ports_of<'a>(source: Lexed<'a>, instance: &[Token]) -> &'a [Token]
    ensures { result.now ≡ spec.ports_of (read_of source.entry) instance.now }
{
    let entity = entity_name(source.text, instance);
    formals(true, interface_of(source.text, entity, source.tokens))
}

/// Whether one of these ports, of this name, drives what it's connected to.
fn drives(text: &[u8], ports: &[Token], name: &[u8]) -> bool
    ensures { result ≡ spec.drives text.now ports.now name.now }
{
    let declared = from_use(Use::Read, &[name], text, ports);
    begins(TokenKind::Out, past(1, from(TokenKind::Colon, declared)))
}

/// The first of these ports of an instance that drives what it's connected to; the first of them,
/// where the source doesn't show one.
pub fn driving_port<'n>(source: Lexed<'_>, instance: &[Token], names: &[&'n [u8]]) -> &'n [u8]
    ensures { result.now ≡ spec.driving_port (read_of source.entry) instance.now (map (λ n. n.now) names.now) }
{
    let ports = ports_of(source, instance);
    let mut left = names;
    while let [name, rest @ ..] = left {
        if drives(source.text, ports, *name) {
            return *name;
        }
        left = rest;
    }
    first_name(names)
}

/// The first of some names, or nothing.
fn first_name<'n>(names: &[&'n [u8]]) -> &'n [u8]
    ensures { result.now ≡ spec.first_name (map (λ n. n.now) names.now) }
{
    match names {
        [name, ..] => *name,
        [] => &[],
    }
}

/// Where a port of an instance is connected: its formal in the map, or the instance's label where
/// the map is by order.
pub fn connection(text: &[u8], port: &[u8], instance: &[Token]) -> Option<Token>
    ensures { result ≡ spec.connection text.now port.now instance.now }
{
    let words = Lexed {
        text,
        tokens: associations(labelled(instance)),
    };
    match first_use(Use::Formal, &[port], words) {
        Some(formal) => Some(formal),
        None => first_of(instance),
    }
}
