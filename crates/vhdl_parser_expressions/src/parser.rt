//! A parser's place among the tokens.

ghost use Rattle.std.specs.Prelude.{false, ◌≡◌, ◌∷◌, ◌≤◌, ◌+◌, ℕ, List, length, slice_index, IfOk};
ghost use Rattle.vhdl_lexer.specs.Cut.{AreWithin};
ghost use Rattle.vhdl_lexer.specs.declared.token.TokenKind.TheVariants as k;
ghost use Rattle.vhdl_tree.specs.Lexeme.{Lexeme, lexemes, same_kind};
ghost use Rattle.vhdl_tree.specs.View.{ident_view, option_ident_view, literal_view};
ghost use Rattle.vhdl_parser_expressions.specs.reader.Expressions.{sees_power};
ghost use Rattle.vhdl_parser_expressions.specs.reader.Input as read;
ghost use Rattle.vhdl_parser_expressions.specs.reader.Input.{Reads, Takes};

use crate::stop::Stop;
use std::alloc::Global;
use std::marker::Model;
use vhdl_lexer::{Token, TokenKind};
use vhdl_tree::{Identifier, Literal};

/// What an item reads, if a token of this kind comes next.
#[macro_export]
macro_rules! optional {
    ($parser:expr, $kind:expr, $item:expr) => {
        if $parser.sees($kind) {
            Ok(Some($item))
        } else {
            Ok(None)
        }
    };
}

/// A place among the tokens of a source. Contracts see it as the lexemes that are ahead.
///
/// A call that reads takes the tokens that it reads, and answers what they spell, which takes
/// memory in proportion to them. Where `levels` is given, no more levels than these are opened in
/// what is read (docs/LANGUAGE.md).
///
/// # Errors
///
/// - `Unexpected` where what is read doesn't go on with the next token, and `EndOfFile` where no
///   token is left and one has to stand.
/// - `TooDeep` where one level more would open than may.
/// - `NoMemory` where memory was refused.
#[derive(Drop)]
pub struct Parser<'a> {
    /// What trees are made with.
    pub alloc: Global,
    source: &'a [u8],
    tokens: &'a [Token],
}

impl<'a> Model for Parser<'a> {
    ghost use Rattle.std.specs.Prelude.{List};
    ghost use Rattle.vhdl_tree.specs.Lexeme.{Lexeme};

    ghost Value = { List Lexeme };

    ghost use Rattle.vhdl_parser_expressions.specs.Cursor.{ahead, IsReady};

    ghost view = { ahead };

    ghost invariant = { IsReady };
}

impl<'a> Parser<'a> {
    /// A parser at the first of these tokens, which are places in `source`, in order.
    pub fn new(alloc: Global, source: &'a [u8], tokens: &'a [Token]) -> Parser<'a>
        requires { AreWithin source.now tokens.now }
        ensures { result ≡ lexemes source.now tokens.now }
    {
        Parser {
            alloc,
            source,
            tokens,
        }
    }

    /// How many tokens are ahead.
    pub fn left(&self) -> usize
        ensures { result ≡ length self.now }
    {
        self.tokens.len()
    }

    /// The kind of the next token, or `None` behind the last one.
    #[tactic(auto, unfolding(crate::specs::reader::Input::next_kind))]
    pub fn peek(&self) -> Option<TokenKind>
        ensures { result ≡ read.next_kind self.now }
    {
        if self.tokens.is_empty() {
            return None;
        }
        Some(self.tokens[0].kind)
    }

    /// Whether the next token is of this kind.
    #[tactic(auto, unfolding(crate::specs::reader::Input::next_kind, vhdl_tree::specs::Lexeme::same_kind, vhdl_tree::specs::Lexeme::lexeme))]
    pub fn sees(&self, kind: TokenKind) -> bool
        ensures { result ≡ read.sees kind self.now }
    {
        match self.tokens.first() {
            None => false,
            Some(token) => token.kind == kind,
        }
    }

    /// Whether the next two tokens are of these kinds.
    #[tactic(auto, unfolding(crate::specs::reader::Input::next_kind, crate::specs::reader::Input::second_kind))]
    pub fn sees_both(&self, first: TokenKind, second: TokenKind) -> bool
        ensures { result ≡ read.sees_both first second self.now }
    {
        match self.tokens.split_first() {
            None => false,
            Some((_, rest)) => self.sees(first) && begins(rest, second),
        }
    }

    /// Whether two stars that touch come next.
    #[tactic(auto, unfolding(crate::specs::reader::Expressions::sees_power, vhdl_tree::specs::Lexeme::lexeme))]
    pub fn sees_power(&self) -> bool
        ensures { result ≡ sees_power self.now }
    {
        let Some((first, rest)) = self.tokens.split_first() else {
            return false;
        };
        match rest.first() {
            None => false,
            Some(second) => {
                first.kind == TokenKind::Star
                    && second.kind == TokenKind::Star
                    && second.start as usize == first.start as usize + 1
            }
        }
    }

    /// Why nothing goes on here: `Unexpected` before a token, `EndOfFile` behind the last one.
    #[tactic(auto, unfolding(crate::specs::reader::Input::refusal))]
    pub fn refuse(&self) -> Stop
        ensures { result ≡ read.refusal self.now }
    {
        match self.tokens.first() {
            None => Stop::EndOfFile,
            Some(_) => Stop::Unexpected,
        }
    }

    /// Takes the next token, which is of this kind, and answers where it starts.
    #[tactic(auto, unfolding(crate::specs::reader::Input::expect, vhdl_tree::specs::Lexeme::lexeme))]
    pub fn expect(&mut self, kind: TokenKind) -> Result<usize, Stop>
        ensures { Reads (λ at. at) (read.expect kind self.old) result self.new }
    {
        let (token, rest) = next_token(self.tokens, kind)?;
        self.tokens = rest;
        Ok(token.start as usize)
    }

    /// Takes the next token, if it is of this kind, and answers whether it is.
    #[tactic(auto, unfolding(crate::specs::reader::Input::eat))]
    pub fn eat(&mut self, kind: TokenKind) -> Result<bool, Stop>
        ensures { Reads (λ b. b) (read.eat kind self.old) result self.new }
    {
        if self.sees(kind) {
            self.expect(kind)?;
            Ok(true)
        } else {
            Ok(false)
        }
    }

    /// Takes the next token, which is an identifier.
    #[tactic(auto, unfolding(crate::specs::reader::Input::identifier, vhdl_tree::specs::Lexeme::lexeme, vhdl_tree::specs::Lexeme::same_kind))]
    pub fn identifier(&mut self) -> Result<Identifier, Stop>
        ensures { Reads ident_view (read.identifier self.old) result self.new }
    {
        let (token, rest) = next_token(self.tokens, TokenKind::Identifier)?;
        let word = &self.source[token.start as usize..token.end as usize];
        let text = word.to_ascii_lowercase(self.alloc)?;
        self.tokens = rest;
        Ok(Identifier {
            at: token.start as usize,
            text,
        })
    }

    /// Takes the next token, which is a character literal: where it starts, and its character.
    #[tactic(auto, unfolding(crate::specs::reader::Input::literal, vhdl_tree::specs::Lexeme::lexeme, vhdl_tree::specs::Lexeme::same_kind))]
    pub fn literal(&mut self) -> Result<(usize, u8), Stop>
        ensures { Reads (λ c. c) (read.literal self.old) result self.new }
    {
        let (token, rest) = next_token(self.tokens, TokenKind::Character)?;
        let code = second(&self.source[token.start as usize..token.end as usize]);
        self.tokens = rest;
        Ok((token.start as usize, code))
    }

    /// Takes the next token, which is a literal of this kind, with its bytes.
    #[tactic(auto, unfolding(crate::specs::reader::Input::text, vhdl_tree::specs::Lexeme::lexeme, vhdl_tree::specs::Lexeme::same_kind))]
    pub fn text(&mut self, kind: TokenKind) -> Result<Literal, Stop>
        requires { same_kind kind k.Identifier ≡ false }
        ensures { Reads literal_view (read.text kind self.old) result self.new }
    {
        let (token, rest) = next_token(self.tokens, kind)?;
        let text = self.source[token.start as usize..token.end as usize].to_vec(self.alloc)?;
        self.tokens = rest;
        Ok(Literal {
            at: token.start as usize,
            text,
        })
    }

    /// An identifier, if one comes next.
    #[tactic(auto, unfolding(crate::specs::reader::Input::optional))]
    pub fn optional_identifier(&mut self) -> Result<Option<Identifier>, Stop>
        ensures { Reads option_ident_view (read.optional (read.is_kind k.Identifier) read.identifier self.old) result
            self.new }
    {
        optional!(self, TokenKind::Identifier, self.identifier()?)
    }
}

/// One less of the levels that may be opened, or `TooDeep` where none may.
#[tactic(auto, unfolding(crate::specs::reader::Input::below))]
pub fn below(levels: usize) -> Result<usize, Stop>
    ensures value { (ts : List Lexeme) → Reads (λ n. n) (read.below levels ts) result ts }
    ensures less { IfOk result (λ n. n + 1 ≤ levels) }
{
    if levels == 0 {
        Err(Stop::TooDeep)
    } else {
        Ok(levels - 1)
    }
}

/// Whether the first of the tokens is of this kind.
#[tactic(auto, unfolding(crate::specs::reader::Input::next_kind, vhdl_tree::specs::Lexeme::same_kind, vhdl_tree::specs::Lexeme::lexeme))]
fn begins(tokens: &[Token], kind: TokenKind) -> bool
    ensures { (source : List ℕ) → result ≡ read.is_kind kind (read.next_kind (lexemes source tokens.now)) }
{
    match tokens.first() {
        None => false,
        Some(token) => token.kind == kind,
    }
}

/// The next token, which is of this kind, and those after it.
#[tactic(auto, unfolding(crate::specs::reader::Input::token, vhdl_tree::specs::Lexeme::lexeme, vhdl_tree::specs::Lexeme::same_kind))]
fn next_token(tokens: &[Token], kind: TokenKind) -> Result<(Token, &[Token]), Stop>
    ensures ok { IfOk result (λ r. (tokens.now ≡ r.0 ∷ r.1.now) × (r.0.kind ≡ kind)) }
    ensures reads { (source : List ℕ) → Takes source tokens.now (read.token kind) result }
{
    match tokens.split_first() {
        None => Err(Stop::EndOfFile),
        Some((token, rest)) => {
            if token.kind == kind {
                Ok((*token, rest))
            } else {
                Err(Stop::Unexpected)
            }
        }
    }
}

fn second(text: &[u8]) -> u8
    ensures { result ≡ slice_index text.now 1 }
{
    if text.len() > 1 { text[1] } else { 0 }
}
