//! Two statements that assign a signal.

ghost use Rattle.std.specs.Prelude.{◌≡◌};
ghost use Rattle.vhdl_places.specs.Drivers as spec;

use crate::maps::architecture_of;
use crate::regions::last_unit;
use crate::statements::behind_statement;
use crate::uses::{Use, first_use};
use vhdl_lexer::{Token, TokenKind};
use vhdl_slips::{Lexed, first_text, has, up_to};

/// What may assign a signal, from its declaration on: the rest of its architecture; of a port's the
/// architecture of its entity.
fn reach<'a>(before: &[Token], words: Lexed<'a>) -> Lexed<'a>
    ensures text { result.text.now ≡ words.entry.text.now }
    ensures tokens { result.tokens.now ≡ spec.reach words.entry.text.now before.now words.entry.tokens.now }
{
    let text = words.text;
    let own = up_to(TokenKind::Architecture, words.tokens);
    if has(TokenKind::Begin, own) {
        return Lexed { text, tokens: own };
    }
    let unit = Lexed {
        text,
        tokens: last_unit(before),
    };
    Lexed {
        text,
        tokens: architecture_of(text, first_text(unit), words.tokens),
    }
}

/// The first assignment of this name behind its declaration, with which these words begin and
/// before which these tokens stand.
pub fn first_driver(name: &[u8], before: &[Token], words: Lexed<'_>) -> Option<Token>
    ensures { result ≡ spec.first_driver words.entry.text.now name.now before.now words.entry.tokens.now }
{
    first_use(Use::Assigned, &[name], reach(before, words))
}

/// The first assignment of it in another statement.
pub fn second_driver(name: &[u8], before: &[Token], words: Lexed<'_>) -> Option<Token>
    ensures { result ≡ spec.second_driver words.entry.text.now name.now before.now words.entry.tokens.now }
{
    let first = first_driver(name, before, words)?;
    let (_before, here) = reach(before, words).split_at(first.start as usize);
    let behind = Lexed {
        text: words.text,
        tokens: behind_statement(here.tokens),
    };
    first_use(Use::Assigned, &[name], behind)
}
