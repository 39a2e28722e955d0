//! Expressions (IEEE 1076-2008 clause 9).

ghost use Rattle.std.specs.Prelude.{◌≡◌, Some};
ghost use Rattle.vhdl_lexer.specs.declared.language.Language.TheVariants.{Wide};
ghost use Rattle.vhdl_tree.specs.Tree.{Expr as Tree, all_joined, chained};
ghost use Rattle.vhdl_tree.specs.View.{view, pair_view, pairs_view};
ghost use Rattle.vhdl_parser_expressions.specs.reader.Input as input;
ghost use Rattle.vhdl_parser_expressions.specs.reader.Input.{Reads};
ghost use Rattle.vhdl_parser_expressions.specs.reader.Expressions as read;

use crate::behind::followed;
use crate::operator::{Level, sign_at};
use crate::parser::Parser;
use crate::stop::Stop;
use vhdl_lexer::{Language, TokenKind};
use vhdl_tree::{Expr, Link, Operator};

impl Parser<'_> {
    /// The operator that a chain of a level goes on with behind its last one.
    #[tactic(auto, unfolding(crate::specs::reader::Expressions::next_operator))]
    fn next_operator(&self, level: Level, last: Operator) -> Option<Operator>
        ensures { result ≡ read.next_operator level last (input.next_kind self.now) }
    {
        match level {
            Level::Logical => {
                if last.repeats() && self.sees(last.kind()) {
                    Some(last)
                } else {
                    None
                }
            }
            Level::Relation => None,
            Level::Adding | Level::Multiplying => level.operator_at(self.peek()),
        }
    }

    /// An expression (clause 9), in which so many levels may be opened.
    #[cycle(expr)]
    pub fn expr(&mut self, language: Language, levels: usize) -> Result<Expr, Stop>
        ensures { Reads view (read.expr language levels self.old) result self.new }
    {
        self.chain(language, levels, Level::Logical)
    }

    /// A chain of operators of a level, or its first operand alone.
    #[cycle(expr)]
    #[tactic(auto, unfolding(crate::specs::reader::Expressions::begin))]
    fn chain(&mut self, language: Language, levels: usize, level: Level) -> Result<Expr, Stop>
        ensures { Reads view (read.chain_of (read.inner language levels) level self.old) result self.new }
    {
        let first = self.first(language, levels, level)?;
        let Some(operator) = level.operator_at(self.peek()) else {
            return Ok(first);
        };
        let (second, rest) = self.all_links(language, levels, level, operator)?;
        Ok(Expr::chain(self.alloc, first, second, rest)?)
    }

    /// What follows the first operand of a chain, whatever that is: an operator, its operand, and
    /// what goes on behind them.
    #[cycle(expr)]
    fn all_links(
        &mut self,
        language: Language,
        levels: usize,
        level: Level,
        operator: Operator,
    ) -> Result<(Link, Vec<Link>), Stop>
        ensures { (first : Tree) → Reads (λ r. chained first (pair_view r.0) (pairs_view r.1))
            (read.begin_by (read.operand_of (read.inner language levels) level) level first (Some operator) self.old)
            result self.new }
    {
        let second = self.link(language, levels, level, operator)?;
        let rest = self.links(language, levels, level, operator)?;
        Ok((second, rest))
    }

    /// The first operand of a chain.
    #[cycle(expr)]
    fn first(&mut self, language: Language, levels: usize, level: Level) -> Result<Expr, Stop>
        ensures { Reads view (read.first_of (read.inner language levels) level self.old) result self.new }
    {
        match level {
            Level::Adding => self.leading(language, levels),
            Level::Logical | Level::Relation | Level::Multiplying => self.operand(
                language, levels, level,
            ),
        }
    }

    /// A term, with a sign or without one.
    #[cycle(expr)]
    #[tactic(auto, unfolding(crate::specs::reader::Expressions::leading))]
    fn leading(&mut self, language: Language, levels: usize) -> Result<Expr, Stop>
        ensures { Reads view (read.leading (read.term (read.inner language levels)) self.old) result self.new }
    {
        match sign_at(self.peek()) {
            None => self.chain(language, levels, Level::Multiplying),
            Some(sign) => {
                let at = self.expect(sign.kind())?;
                let operand = self.chain(language, levels, Level::Multiplying)?;
                Ok(Expr::with_sign(self.alloc, sign, at, operand)?)
            }
        }
    }

    /// What follows the last operator of a chain and its operand, whatever stands before.
    #[cycle(expr)]
    fn links(
        &mut self,
        language: Language,
        levels: usize,
        level: Level,
        last: Operator,
    ) -> Result<Vec<Link>, Stop>
        ensures { (left : Tree) → Reads (λ ls. all_joined left (pairs_view ls))
            (read.more (read.operand_of (read.inner language levels) level) level last left self.old) result self.new }
    {
        let mut found = Vec::new(self.alloc);
        let mut last = last;
        for _turn in 0..self.left() {
            let Some(operator) = self.next_operator(level, last) else {
                return Ok(found);
            };
            found.push(self.link(language, levels, level, operator)?)?;
            last = operator;
        }
        Ok(found)
    }

    /// An operator and its right operand.
    #[cycle(expr)]
    #[tactic(auto, unfolding(crate::specs::reader::Expressions::pair))]
    fn link(
        &mut self,
        language: Language,
        levels: usize,
        level: Level,
        operator: Operator,
    ) -> Result<Link, Stop>
        ensures { Reads pair_view (read.pair (read.operand_of (read.inner language levels) level) operator self.old)
            result self.new }
    {
        let at = self.expect(operator.kind())?;
        let operand = self.operand(language, levels, level)?;
        Ok(Link {
            operator,
            at,
            operand,
        })
    }

    /// The right operand of an operator of a level.
    #[cycle(expr)]
    fn operand(&mut self, language: Language, levels: usize, level: Level) -> Result<Expr, Stop>
        ensures { Reads view (read.operand_of (read.inner language levels) level self.old) result self.new }
    {
        match level {
            Level::Logical => self.chain(language, levels, Level::Relation),
            Level::Relation => self.chain(language, levels, Level::Adding),
            Level::Adding => self.chain(language, levels, Level::Multiplying),
            Level::Multiplying => self.factor(language, levels),
        }
    }

    #[cycle(expr)]
    #[tactic(auto, unfolding(crate::specs::reader::Expressions::factor))]
    fn factor(&mut self, language: Language, levels: usize) -> Result<Expr, Stop>
        ensures { Reads view (read.factor (read.inner language levels) self.old) result self.new }
    {
        if self.sees(TokenKind::Not) {
            return self.inverse(language, levels);
        }
        match language {
            Language::Wide if self.sees(TokenKind::Abs) => self.magnitude(levels),
            Language::Wide | Language::Profile => self.optional_power(language, levels),
        }
    }

    #[cycle(expr)]
    #[tactic(auto, unfolding(crate::specs::reader::Expressions::inverse))]
    fn inverse(&mut self, language: Language, levels: usize) -> Result<Expr, Stop>
        ensures { Reads view (read.inverse (read.inner language levels) self.old) result self.new }
    {
        let at = self.expect(TokenKind::Not)?;
        let operand = self.primary(language, levels)?;
        Ok(Expr::negated(self.alloc, at, operand)?)
    }

    #[cycle(expr)]
    #[tactic(auto, unfolding(crate::specs::reader::Expressions::magnitude))]
    fn magnitude(&mut self, levels: usize) -> Result<Expr, Stop>
        ensures { Reads view (read.magnitude (read.inner Wide levels) self.old) result self.new }
    {
        let at = self.expect(TokenKind::Abs)?;
        let operand = self.primary(Language::Wide, levels)?;
        Ok(Expr::magnitude(self.alloc, at, operand)?)
    }

    /// A primary, and in the wider language its power.
    #[cycle(expr)]
    #[tactic(auto, unfolding(crate::specs::reader::Expressions::optional_power))]
    fn optional_power(&mut self, language: Language, levels: usize) -> Result<Expr, Stop>
        ensures { Reads view (read.optional_power (read.inner language levels) self.old) result self.new }
    {
        let base = self.primary(language, levels)?;
        match language {
            Language::Wide if self.sees_power() => self.raised(levels, base),
            Language::Wide | Language::Profile => Ok(base),
        }
    }

    /// `**` and an exponent behind a base.
    #[cycle(expr)]
    #[tactic(auto, unfolding(crate::specs::reader::Expressions::raised))]
    fn raised(&mut self, levels: usize, base: Expr) -> Result<Expr, Stop>
        ensures { Reads view (read.raised (read.inner Wide levels) (view base) self.old) result self.new }
    {
        let at = self.expect(TokenKind::Star)?;
        let base = followed(self, base, TokenKind::Star)?;
        let exponent = self.primary(Language::Wide, levels)?;
        Ok(Expr::power(self.alloc, base, at, exponent)?)
    }

    #[cycle(expr)]
    #[tactic(auto, unfolding(crate::specs::reader::Expressions::primary, vhdl_tree::specs::Lexeme::same_kind))]
    fn primary(&mut self, language: Language, levels: usize) -> Result<Expr, Stop>
        ensures { Reads view (read.primary (read.inner language levels) self.old) result self.new }
    {
        match self.peek() {
            Some(TokenKind::Identifier) => {
                let identifier = self.identifier()?;
                self.named(language, levels, identifier)
            }
            Some(TokenKind::Integer) => Ok(Expr::Integer(self.text(TokenKind::Integer)?)),
            Some(TokenKind::Character) => {
                let (at, code) = self.literal()?;
                Ok(Expr::Character { at, code })
            }
            Some(TokenKind::String) => Ok(Expr::StringLiteral(self.text(TokenKind::String)?)),
            Some(TokenKind::BitString) => Ok(Expr::BitString(self.text(TokenKind::BitString)?)),
            Some(TokenKind::LeftParen) => self.parenthesis(language, levels),
            _ => Err(self.refuse()),
        }
    }

    /// The expression behind a `(`, where so many levels may be opened, that parenthesis among
    /// them.
    #[cycle(expr)]
    #[tactic(auto, unfolding(crate::specs::reader::Expressions::inside))]
    pub fn inside(&mut self, language: Language, levels: usize) -> Result<Expr, Stop>
        ensures { Reads view (read.inside language levels self.old) result self.new }
    {
        if levels == 0 {
            return Err(Stop::TooDeep);
        }
        self.expr(language, levels - 1)
    }
}
