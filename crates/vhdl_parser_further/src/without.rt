//! What is left of the tokens of a source behind a fault.

ghost use Rattle.std.specs.Prelude.{◌≡◌, IfOk, take, drop};
ghost use Rattle.vhdl_parser_further.specs.Left as spec;

use crate::place::place_of;
use crate::sequel::{Sequel, sequel_of};
use crate::statement::{behind_statement, taken};
use crate::unit::before_unit;
use std::alloc::{AllocError, Global};
use vhdl_lexer::Token;

/// What is left of the tokens behind a fault that is told at this byte.
#[tactic(auto, unfolding(crate::specs::Left::left))]
pub fn left(alloc: Global, tokens: &[Token], at: usize) -> Result<Vec<Token>, AllocError>
    ensures { IfOk result (λ v. v.items ≡ spec.left tokens.now at) }
{
    let place = place_of(tokens, at);
    let ahead = from(tokens, place.read);
    let (ahead, units) = ahead.split_at(before_unit(ahead));
    match taken(place, tokens, ahead) {
        Some(begins) => without(alloc, sequel_of(place, ahead), tokens, begins),
        None => Vec::from_slice(alloc, units),
    }
}

/// The tokens without the statement or declaration that begins behind so many of them, and that has
/// to be followed so.
fn without(
    alloc: Global,
    sequel: Sequel,
    tokens: &[Token],
    begins: usize,
) -> Result<Vec<Token>, AllocError>
    ensures { IfOk result (λ v. v.items ≡ spec.without sequel tokens.now begins) }
{
    let mut left = Vec::from_slice(alloc, before(tokens, begins))?;
    left.extend_from_slice(behind_statement(sequel, from(tokens, begins)))?;
    Ok(left)
}

/// So many tokens, or all where there are fewer.
fn before(tokens: &[Token], count: usize) -> &[Token]
    ensures { result.now ≡ take count tokens.now }
{
    if count < tokens.len() {
        &tokens[..count]
    } else {
        tokens
    }
}

/// The tokens behind so many of them.
pub fn from(tokens: &[Token], count: usize) -> &[Token]
    ensures { result.now ≡ drop count tokens.now }
{
    if count < tokens.len() {
        &tokens[count..]
    } else {
        &[]
    }
}
