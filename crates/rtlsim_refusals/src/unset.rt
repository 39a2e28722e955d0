//! A value that is set for a generic of the top, which has no generic of that name: it is told at
//! the name of the entity.

ghost use Rattle.std.specs.Prelude.{◌≡◌};
ghost use Rattle.byte_streams.specs.Written.{Goes};
ghost use Rattle.rtlsim_refusals.specs.SetGenerics as spec;
ghost use Rattle.vhdl_slips.specs.Words.{read_of};

use crate::refused::said_of;
use byte_streams::{Sink, push_text};
use fault_rules::{ElabRule, Rule};
use vhdl_lexer::{Token, TokenKind};
use vhdl_slips::{
    Lexed, Listing, Said, begins, first_text, formals, interface_of, past, push_names,
};

/// What is said of an entity that has no such generic.
pub const NO_SUCH_GENERIC: Said = (
    "has no generic of a name that --generic sets",
    "see the spelling of each name; they are of the entity at the top",
);

/// Whether the name behind these tokens is an entity's: no name of a generic stands behind that
/// word.
pub(crate) fn names_entity(before: &[Token]) -> bool
    ensures { result ≡ spec.names_entity before.now }
{
    begins(
        TokenKind::Entity,
        past(before.len().saturating_sub(1), before),
    )
}

/// What is said of a generic without a value, or of an entity without a generic.
pub(crate) fn no_generic_said(of_entity: bool) -> Said
    ensures { (result.0.now, result.1.now) ≡ spec.no_generic_said of_entity }
{
    if of_entity {
        NO_SUCH_GENERIC
    } else {
        said_of(Rule::Elab(ElabRule::NoGeneric))
    }
}

/// Writes a line with the generics of the entity whose name stands here; none where it has none.
pub(crate) fn push_generics_of<S: Sink>(from: Lexed<'_>, source: Lexed<'_>, sink: &mut S)
    ensures { Goes (S.state sink.old) (S.state sink.new)
        (spec.generics_below (read_of from.entry) (read_of source.entry)) }
{
    let interface = interface_of(source.text, first_text(from), source.tokens);
    push_generics(source.text, formals(false, interface), sink);
}

/// Writes a line with the generics that stand in these tokens; none where there is no token.
fn push_generics<S: Sink>(text: &[u8], generics: &[Token], sink: &mut S)
    ensures { Goes (S.state sink.old) (S.state sink.new) (spec.generics_line text.now generics.now) }
{
    match generics {
        [] => push_text(sink, b""),
        _ => {
            let generics = Lexed {
                text,
                tokens: generics,
            };
            push_names(Listing::Generics, generics, sink);
            push_text(sink, b"\n");
        }
    }
}
