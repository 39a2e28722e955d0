//! A name of a sensitivity list that the process doesn't read.

ghost use Rattle.std.specs.Prelude.{◌≡◌};
ghost use Rattle.vhdl_places.specs.Lists as spec;
ghost use Rattle.vhdl_slips.specs.Words.{read_of};

use crate::statements::{body, sensitivity};
use crate::uses::{Use, first_use};
use vhdl_lexer::{Token, TokenKind};
use vhdl_misfits::{begins_one_of, behind_name};
use vhdl_slips::{Lexed, begins, is_literal, is_same_kind, past, text_of, type_of};

/// What a process lacks that has a name in its list and doesn't read it.
#[derive(Clone, Copy)]
pub enum Lack {
    /// Nothing: the process assigns it.
    Nothing,
    /// A place where it's read.
    Reading,
    /// An if with its edge.
    EdgeIf,
    /// A branch with its edge, where this else stands.
    EdgeBranch(Token),
}

/// A name of a sensitivity list that the process doesn't read.
#[derive(Clone, Copy)]
pub struct Unread {
    pub name: Token,
    pub lack: Lack,
}

/// The first name of the list of the process with which these tokens begin that its body doesn't
/// read, if there is one, and what lacks.
pub fn unread_name(source: Lexed<'_>, tokens: &[Token]) -> Option<Unread>
    ensures { result ≡ spec.unread_name (read_of source.entry) tokens.now }
{
    let name = first_unread(source.text, tokens)?;
    let before = before_first(source, tokens);
    let lack = lack_of(source, before, body(tokens), text_of(source.text, name));
    Some(Unread { name, lack })
}

/// What stands in the source before these tokens.
fn before_first<'a>(source: Lexed<'a>, tokens: &[Token]) -> Lexed<'a>
    ensures { read_of result ≡ spec.before_first (read_of source.entry) tokens.now }
{
    match tokens {
        [first, ..] => {
            let (before, _here) = source.split_at(first.start as usize);
            before
        }
        [] => Lexed {
            text: source.text,
            tokens: &[],
        },
    }
}

/// The first name of the list that the body doesn't read.
fn first_unread(text: &[u8], tokens: &[Token]) -> Option<Token>
    ensures { result ≡ spec.first_unread text.now tokens.now }
{
    let read = body(tokens);
    sensitivity(tokens)
        .iter()
        .copied()
        .find(|name| is_unread(text, read, *name))
}

/// Whether it is a name that these tokens don't read.
fn is_unread(text: &[u8], tokens: &[Token], name: Token) -> bool
    ensures { result ≡ spec.is_unread text.now tokens.now name }
{
    is_same_kind(name.kind, TokenKind::Identifier)
        && first_use(Use::Read, &[text_of(text, name)], Lexed { text, tokens }).is_none()
}

/// Whether an edge of a name is tested somewhere in the source.
fn is_clock(source: Lexed<'_>, name: &[u8]) -> bool
    ensures { result ≡ spec.is_clock (read_of source.entry) name.now }
{
    first_use(Use::Edge, &[name], source).is_some()
}

/// Whether a body begins as that of a register with an asynchronous reset does: with an if that
/// tests an element and assigns a constant.
fn resets(before: Lexed<'_>, body: &[Token]) -> bool
    ensures { result ≡ spec.resets (read_of before.entry) body.now }
{
    begins(TokenKind::If, past(1, body))
        && begins(TokenKind::Equal, past(3, body))
        && begins(TokenKind::Character, past(4, body))
        && begins(TokenKind::Then, past(5, body))
        && begins_constant(before, past(1, behind_name(past(6, body))))
}

/// Whether these tokens begin with a literal of an enumeration, the source standing before.
fn begins_literal(before: Lexed<'_>, tokens: &[Token]) -> bool
    ensures { result ≡ spec.begins_literal (read_of before.entry) tokens.now }
{
    match tokens {
        [first, ..] => {
            let name = text_of(before.text, *first);
            is_same_kind(first.kind, TokenKind::Identifier)
                && is_literal(type_of(before, name), name)
        }
        [] => false,
    }
}

/// Whether these tokens begin with one, with another literal, or with a parenthesis as
/// `(others => '0')` does.
fn begins_constant(before: Lexed<'_>, tokens: &[Token]) -> bool
    ensures { result ≡ spec.begins_constant (read_of before.entry) tokens.now }
{
    let kinds = [
        TokenKind::Character,
        TokenKind::String,
        TokenKind::BitString,
        TokenKind::LeftParen,
    ];
    begins_one_of(&kinds, tokens) || begins_literal(before, tokens)
}

/// Whether a name that a body doesn't read may be a clock there.
fn may_be_clock(source: Lexed<'_>, before: Lexed<'_>, body: &[Token], name: &[u8]) -> bool
    ensures { result ≡ spec.may_be_clock (read_of source.entry) (read_of before.entry) body.now name.now }
{
    resets(before, body) || is_clock(source, name)
}

/// Whether these tokens assign a name.
fn is_driven(text: &[u8], body: &[Token], name: &[u8]) -> bool
    ensures { result ≡ spec.is_driven text.now body.now name.now }
{
    let words = Lexed { text, tokens: body };
    first_use(Use::Assigned, &[name], words).is_some()
}

/// What lacks of a name that these tokens don't read.
fn lack_of(source: Lexed<'_>, before: Lexed<'_>, body: &[Token], name: &[u8]) -> Lack
    ensures { result ≡ spec.lack_of (read_of source.entry) (read_of before.entry) body.now name.now }
{
    if is_driven(source.text, body, name) {
        return Lack::Nothing;
    }
    if !may_be_clock(source, before, body, name) {
        return Lack::Reading;
    }
    let words = Lexed {
        text: source.text,
        tokens: body,
    };
    match first_use(Use::Branch, &[], words) {
        Some(branch) => Lack::EdgeBranch(branch),
        None => Lack::EdgeIf,
    }
}
