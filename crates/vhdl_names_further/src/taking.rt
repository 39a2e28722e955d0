//! What is taken out with a fault.

ghost use Rattle.std.specs.Prelude.{◌≡◌, ◌≤◌, ◌||◌, ◌&&◌, true, not, length, Some, None, if◌then◌else◌};
ghost use Rattle.vhdl_lexer.specs.Cut.{AreWithin, Cuts};
ghost use Rattle.vhdl_lexer.specs.Extents as extents;
ghost use Rattle.vhdl_names_further.specs.Taken as spec;
ghost use Rattle.vhdl_names_further.specs.Once.{IsOut, without_begun};

use crate::blanking::blank_out;
use crate::naming::{around, begins_value, is_before_arrow, is_formal, is_from, is_name, name_at};
use vhdl_lexer::{Extent, Token, TokenKind, begins_behind, depth_behind, statement_at};
use vhdl_names_rules::{NameFault, NameProblem};

/// Takes out of what is left of a source that has these tokens what is at fault: puts blanks in
/// place of the statement or declaration in which the fault stands, and of a name that isn't
/// declared, isn't visible or is left out in place of each one in which it stands, from the fault
/// up to the next architecture, but for a formal. Answers whether anything is taken out. It is one
/// walk over the tokens.
pub fn take_out(source: &[u8], tokens: &[Token], fault: NameFault, left: &mut [u8]) -> bool
    requires { Cuts None 0 source.now tokens.now }
    ensures { spec.past source.now tokens.now left.old fault ≡ (if result then Some left.new else None) }
{
    let NameFault::At { problem, at } = fault else {
        return false;
    };
    let Some(extent) = extent_of(tokens, problem, at) else {
        return false;
    };
    blank_out(extent, left);
    if is_everywhere(tokens, problem, at) {
        take_name(source, tokens, name_at(source, tokens, at), at, left);
    }
    true
}

/// What is taken out with a fault of this problem at this byte.
pub(crate) fn extent_of(tokens: &[Token], problem: NameProblem, at: usize) -> Option<Extent>
    ensures { result ≡ spec.extent_of tokens.now (NameFault.At problem at) }
{
    match problem {
        NameProblem::Twice => None,
        _ => statement_at(tokens, at),
    }
}

/// Whether what is wrong at this byte is a name, wherever it stands.
fn is_everywhere(tokens: &[Token], problem: NameProblem, at: usize) -> bool
    ensures { result ≡ spec.is_everywhere tokens.now problem at }
{
    let around = around(tokens, at);
    is_unknown(around, problem) && !is_formal(around)
}

/// Whether a name has this problem wherever it stands, that is the second of these tokens. What is
/// left out where a value begins is the value's form, and not the name.
pub(crate) fn is_unknown(around: &[Token], problem: NameProblem) -> bool
    ensures { result ≡ spec.is_unknown around.now problem }
{
    match problem {
        NameProblem::Undeclared | NameProblem::NotVisible => true,
        NameProblem::LeftOut => !begins_value(around),
        _ => false,
    }
}

/// Takes out each statement in which the name stands, from this byte on up to the next
/// architecture.
fn take_name(source: &[u8], tokens: &[Token], name: &[u8], at: usize, left: &mut [u8])
    requires { Cuts None 0 source.now tokens.now }
    ensures { left.new
        ≡ spec.without (spec.statements_of tokens.now (spec.with_name source.now name.now at tokens.now)) left.old }
{
    let mut others = tokens;
    let mut here = tokens;
    let mut depth: usize = 0;
    let mut last = TokenKind::Semicolon;
    let mut is_out = false;
    while let [token, rest @ ..] = others {
        if ends_unit(at, *token) {
            return;
        }
        is_out = take_once(is_named(source, name, at, others), is_out, here, left);
        depth = depth_behind(depth, last, token.kind);
        let begins = begins_behind(depth, last, token.kind, rest);
        here = begun(begins, rest, here);
        is_out = is_still(is_out, begins);
        last = token.kind;
        others = rest;
    }
}

/// Whether the word `architecture` stands at this byte or behind it.
fn ends_unit(at: usize, token: Token) -> bool
    ensures { result ≡ spec.ends_unit at token }
{
    is_from(at, token) && matches!(token.kind, TokenKind::Architecture)
}

/// Whether these tokens begin with the name, at this byte or behind it, and it is no formal.
fn is_named(source: &[u8], name: &[u8], at: usize, tokens: &[Token]) -> bool
    requires { AreWithin source.now tokens.now }
    ensures { result ≡ spec.is_named source.now name.now at tokens.now }
{
    match tokens {
        [token, ..] => {
            is_from(at, *token) && is_name(source, name, *token) && !is_before_arrow(tokens)
        }
        [] => false,
    }
}

/// Takes out the statement that begins here, where that is wanted, and unless it is out. Answers
/// whether it's out then.
fn take_once(wanted: bool, is_out: bool, here: &[Token], left: &mut [u8]) -> bool
    requires { IsOut is_out here.now left.old }
    ensures taken { left.new ≡ (if wanted then without_begun here.now left.old else left.old) }
    ensures out { IsOut result here.now left.new }
{
    if !wanted || is_out {
        return is_out;
    }
    take_begun(here, left);
    true
}

/// Takes out the statement that begins here, if it may be.
fn take_begun(here: &[Token], left: &mut [u8])
    ensures { left.new ≡ without_begun here.now left.old }
{
    if let Some(extent) = statement_at(here, 0) {
        blank_out(extent, left);
    }
}

/// The rest behind a token where a statement or declaration begins there, else what was begun
/// before.
fn begun<'a>(begins: bool, rest: &'a [Token], here: &'a [Token]) -> &'a [Token]
    ensures { result.now ≡ (if begins then rest.now else here.now) }
{
    if begins { rest } else { here }
}

/// Whether what was begun is out, and no statement begins behind it.
fn is_still(is_out: bool, begins: bool) -> bool
    ensures { result ≡ (is_out && not begins) }
{
    is_out && !begins
}
