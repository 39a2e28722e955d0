//! From a text to its tokens.

ghost use Rattle.std.specs.Prelude.{◌≡◌, ◌≤◌, List, None, length, ◌<◌, Err, IfOk, IfErr, IfSome, OnOk};
ghost use Rattle.vhdl_lexer.specs.Cut.{Cuts, AreWithin};
ghost use Rattle.vhdl_lexer.specs.Fault.{greatest_length, IsRefusal, HasFault, fault_byte};
ghost use Rattle.vhdl_lexer.specs.declared.fault.LexFault.{LexFault};
ghost use Rattle.vhdl_lexer.specs.declared.fault.LexFault.TheVariants.{TooLong};
ghost use Rattle.vhdl_lexer.specs.declared.token.Token.{Token};

use crate::fault::LexFault;
use crate::front::token;
use crate::separator::skip;
use crate::token::Token;
use std::alloc::Global;

/// The greatest length of a source, 4,194,304 bytes.
pub const MAX_LEN: usize = 4_194_304;

/// The tokens of a source, in order: its lexical elements (IEEE 1076-2008, 15.3), without the
/// separators and comments.
///
/// Each token is the longest from its start. `start` and `end` count bytes of the source from 0.
/// A tick opens a character literal where a printable byte and then a tick follow it, unless the
/// token before is an identifier or `)`. The list is the one thing that takes memory: up to
/// 12 bytes for each byte of the source, and as much again while it grows.
///
/// # Errors
///
/// - `TooLong` for a source above `MAX_LEN` bytes, before all else.
/// - `BadByte`, `OpenComment`, `OpenString`, `BadIdentifier` or `BadNumber` where the element that
///   starts first and is no token has this fault, at its first byte.
/// - `NoMemory` where the list could not grow.
pub fn lex(alloc: Global, source: &[u8]) -> Result<Vec<Token>, LexFault>
    // The tokens cut the source, and no other list does.
    ensures cuts { IfOk result (λ v. Cuts None 0 source.now v.items) }
    ensures only { IfOk result
        (λ v. (other : List Token) → Cuts None 0 source.now other → other ≡ v.items) }
    ensures within { IfOk result (λ v. AreWithin source.now v.items) }
    ensures no_fault { IfOk result
        (λ v. (fault : LexFault) → IsRefusal fault → HasFault fault source.now → ⊥) }
    ensures short { OnOk result (length source.now ≤ greatest_length) }

    // The fault is what the source has, it is the only one, and then nothing cuts the source.
    ensures too_long { greatest_length < length source.now
        → result ≡ Err (TooLong greatest_length) }
    ensures fault { IfErr result (λ e. HasFault e source.now) }
    ensures only_fault { IfErr result (λ e. IsRefusal e → (other : LexFault)
        → IsRefusal other → HasFault other source.now → other ≡ e) }
    ensures refused { IfErr result
        (λ e. IsRefusal e → (other : List Token) → Cuts None 0 source.now other → ⊥) }
    ensures placed { IfErr result (λ e. IfSome (fault_byte e) (λ at. at ≤ length source.now)) }
{
    if source.len() > MAX_LEN {
        return Err(LexFault::TooLong { at: MAX_LEN });
    }
    let mut tokens = Vec::new(alloc);
    let mut before = None;
    let mut text = source;
    loop {
        let ahead = skip(text);
        if ahead.is_empty() {
            return Ok(tokens);
        }
        let start = source.len() - ahead.len();
        let (kind, len) = match token(before, ahead, start) {
            Ok(found) => found,
            Err(fault) => return Err(fault),
        };
        let next = Token {
            kind,
            start: start as u32,
            end: (start + len) as u32,
        };
        tokens.push(next)?;
        before = Some(kind);
        text = &ahead[len..];
    }
}
