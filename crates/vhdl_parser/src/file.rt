//! Files.

ghost use Rattle.std.specs.Prelude.{◌≡◌, ◌≢◌, ◌≤◌, ◌⊎◌, ◌+◌, ◌*◌, [], length, IfOk, IfErr, IfSome, OnOk};
ghost use Rattle.vhdl_lexer.specs.Cut.{AreWithin};
ghost use Rattle.vhdl_parser_rules.specs.Fault.{IsRefusal, IsTooDeep, IsStart, IsPlaced, fault_byte};
ghost use Rattle.vhdl_parser_rules.specs.Stuck.{IsStuck, IsStuckIn, IsMetBehind};
ghost use Rattle.vhdl_tree.specs.Height.{file_height};
ghost use Rattle.vhdl_tree.specs.Levels.{IsShallow, IsDeep, most_open};
ghost use Rattle.vhdl_tree.specs.Lexeme.{lexemes};
ghost use Rattle.vhdl_tree.specs.Pieces.{Spells};
ghost use Rattle.vhdl_tree.specs.Tree as t;
ghost use Rattle.vhdl_tree.specs.View.{file_view};
ghost use Rattle.vhdl_parser_expressions.specs.declared.stop.Stop.TheVariants as s;
ghost use Rattle.vhdl_tree.specs.grammar.Units.{spell_file, IsFile, IsFileIn};

use crate::unit::file;
use std::alloc::Global;
use vhdl_lexer::{Language, Token};
use vhdl_parser_expressions::{Parser, Stop};
use vhdl_parser_rules::SyntaxFault;
use vhdl_tree::File;

/// The tree that the tokens of a source spell, by the grammar of this language.
///
/// `tokens` are places in `source`, in order, as `vhdl_lexer::lex` finds them. The tree takes
/// memory in proportion to the tokens, and the call's stack is bounded by the levels, of which 64
/// may be open at once. So is the tree's height, and with it the stack of whoever walks the tree:
/// no more than 524 expressions, statements, declarations and units stand one in another.
///
/// # Errors
///
/// - `Unexpected` and `EndOfFile` where no well-formed tree spells the tokens.
/// - `TooDeep` where more than 64 levels are open somewhere.
/// - `NoMemory` where a part of the tree could not grow.
///
/// `Unexpected` stands at the first token with which no file goes on: those before it begin a file,
/// and with it they begin none. `EndOfFile` stands at the source's end, where all tokens begin a
/// file and are none. `TooDeep` stands at a token or at the end. Of a source that is too deep and
/// wrong too, the fault that the parser meets first is given.
pub fn parse_in(
    alloc: Global,
    language: Language,
    source: &[u8],
    tokens: &[Token],
) -> Result<File, SyntaxFault>
    requires { AreWithin source.now tokens.now }

    // The tree spells the tokens, and is well formed.
    ensures spelled { IfOk result
        (λ f. Spells (spell_file (file_view f)) (lexemes source.now tokens.now) []) }
    ensures well_formed { IfOk result (λ f. IsFileIn language (file_view f)) }

    // No other tree that is well formed in this language is spelled so.
    ensures only { IfOk result
        (λ f. (other : t.File) → IsFileIn language other
        → Spells (spell_file other) (lexemes source.now tokens.now) [] → other ≡ file_view f) }
    ensures shallow { OnOk result (IsShallow most_open (lexemes source.now tokens.now)) }

    // The tree is no higher than this, however long the file is.
    ensures low { IfOk result (λ f. file_height f ≤ 8 * most_open + 12) }

    // What is refused, and neither for its depth nor for memory, is the spelling of no tree.
    ensures refused { IfErr result
        (λ e. IsRefusal e → (other : t.File) → IsFileIn language other
        → Spells (spell_file other) (lexemes source.now tokens.now) [] → ⊥) }
    ensures deep { IfErr result
        (λ e. IsTooDeep e → IsDeep most_open (lexemes source.now tokens.now)) }
    ensures placed { IfErr result (λ e. IfSome (fault_byte e) (λ at. at ≤ length source.now)) }

    // Unexpected is said of a token, and EndOfFile of the source's end.
    ensures met { IfErr result (IsPlaced source.now tokens.now) }

    // Unexpected is said of the first token with which no file goes on, and EndOfFile where all
    // tokens begin one.
    ensures stuck { IfErr result (IsStuckIn language source.now tokens.now) }
{
    let mut parser = Parser::new(alloc, source, tokens);
    match file(&mut parser, language) {
        Ok(file) => Ok(file),
        Err(stop) => {
            let met = tokens.len().saturating_sub(parser.left());
            Err(fault_at(stop, source, tokens, met))
        }
    }
}

/// The same by the grammar of docs/LANGUAGE.md.
pub fn parse(alloc: Global, source: &[u8], tokens: &[Token]) -> Result<File, SyntaxFault>
    requires { AreWithin source.now tokens.now }

    // The tree spells the tokens, and is well formed.
    ensures spelled { IfOk result
        (λ f. Spells (spell_file (file_view f)) (lexemes source.now tokens.now) []) }
    ensures well_formed { IfOk result (λ f. IsFile (file_view f)) }

    // No other well-formed tree is spelled so.
    ensures only { IfOk result
        (λ f. (other : t.File) → IsFile other
        → Spells (spell_file other) (lexemes source.now tokens.now) [] → other ≡ file_view f) }
    ensures shallow { OnOk result (IsShallow most_open (lexemes source.now tokens.now)) }

    // The tree is no higher than this, however long the file is.
    ensures low { IfOk result (λ f. file_height f ≤ 8 * most_open + 12) }

    // What is refused, and neither for its depth nor for memory, is the spelling of no tree.
    ensures refused { IfErr result
        (λ e. IsRefusal e → (other : t.File) → IsFile other
        → Spells (spell_file other) (lexemes source.now tokens.now) [] → ⊥) }
    ensures deep { IfErr result
        (λ e. IsTooDeep e → IsDeep most_open (lexemes source.now tokens.now)) }
    ensures placed { IfErr result (λ e. IfSome (fault_byte e) (λ at. at ≤ length source.now)) }

    // Unexpected is said of a token, and EndOfFile of the source's end.
    ensures met { IfErr result (IsPlaced source.now tokens.now) }

    // Unexpected is said of the first token with which no file goes on, and EndOfFile where all
    // tokens begin one.
    ensures stuck { IfErr result (IsStuck source.now tokens.now) }
{
    parse_in(alloc, Language::Profile, source, tokens)
}

/// Where a token starts, or the source's length behind the last one.
#[tactic(auto, using(crate::proofs::Within::start_within, crate::proofs::Within::start_is))]
fn byte_of(source: &[u8], tokens: &[Token], index: usize) -> usize
    requires { AreWithin source.now tokens.now }
    ensures placed { IsStart tokens.now result ⊎ (result ≡ length source.now) }
    ensures within { result ≤ length source.now }
{
    if index < tokens.len() {
        tokens[index].start as usize
    } else {
        source.len()
    }
}

/// The fault of a parser that stopped with so many tokens behind it.
#[tactic(auto, using(crate::proofs::Within::start_within, crate::proofs::Within::start_is, crate::proofs::Within::is_next))]
fn fault_at(stop: Stop, source: &[u8], tokens: &[Token], met: usize) -> SyntaxFault
    requires { AreWithin source.now tokens.now }
    ensures refusal { IsRefusal result → (stop ≢ s.NoMemory) × (stop ≢ s.TooDeep) }
    ensures deep { IsTooDeep result → stop ≡ s.TooDeep }
    ensures placed { IfSome (fault_byte result) (λ at. at ≤ length source.now) }
    ensures met { IsPlaced source.now tokens.now result }
    ensures behind { IsMetBehind tokens.now met result }
{
    match stop {
        Stop::NoMemory => SyntaxFault::NoMemory,
        Stop::TooDeep => SyntaxFault::TooDeep {
            at: byte_of(source, tokens, met),
        },
        Stop::Unexpected | Stop::EndOfFile => {
            if met < tokens.len() {
                SyntaxFault::Unexpected {
                    at: tokens[met].start as usize,
                }
            } else {
                SyntaxFault::EndOfFile { at: source.len() }
            }
        }
    }
}
