//! Names and qualified expressions (IEEE 1076-2008 clauses 8 and 9.3.5).

ghost use Rattle.std.specs.Prelude.{◌≡◌, option_map};
ghost use Rattle.vhdl_lexer.specs.declared.language.Language.TheVariants.{Wide};
ghost use Rattle.vhdl_lexer.specs.declared.token.TokenKind.TheVariants as k;
ghost use Rattle.vhdl_tree.specs.View.{view, attribute_view, suffix_view, name_view, ident_view, exprs_view};
ghost use Rattle.vhdl_parser_expressions.specs.reader.Input as input;
ghost use Rattle.vhdl_parser_expressions.specs.reader.Input.{Reads};
ghost use Rattle.vhdl_parser_expressions.specs.reader.Expressions as read;

use crate::behind::followed;
use crate::operator::direction_at;
use crate::parser::Parser;
use crate::stop::Stop;
use vhdl_lexer::{Language, TokenKind};
use vhdl_tree::{Attribute, Direction, Expr, Identifier, Name, Range, Suffix};

impl Parser<'_> {
    /// `' id`, or in the wider language `' range`, if it comes next.
    #[tactic(auto, unfolding(crate::specs::reader::Input::optional, crate::specs::reader::Expressions::attribute))]
    fn optional_attribute(&mut self, language: Language) -> Result<Option<Attribute>, Stop>
        ensures { Reads (option_map attribute_view)
            (input.optional (input.is_kind k.Tick) (read.attribute language) self.old) result self.new }
    {
        if !self.sees(TokenKind::Tick) {
            return Ok(None);
        }
        self.expect(TokenKind::Tick)?;
        Ok(Some(self.attribute_name(language)?))
    }

    /// What stands behind the tick of a name.
    fn attribute_name(&mut self, language: Language) -> Result<Attribute, Stop>
        ensures { Reads attribute_view (read.attribute_name language self.old) result self.new }
    {
        match language {
            Language::Wide if self.sees(TokenKind::Range) => {
                let at = self.expect(TokenKind::Range)?;
                Ok(Attribute::Range { at })
            }
            Language::Wide | Language::Profile => Ok(Attribute::Name(self.identifier()?)),
        }
    }

    /// A name (clause 8), in which so many levels may be opened.
    #[tactic(auto, unfolding(crate::specs::reader::Expressions::name))]
    pub fn name(&mut self, language: Language, levels: usize) -> Result<Name, Stop>
        ensures { Reads name_view (read.name (read.inner language levels) self.old) result self.new }
    {
        let identifier = self.identifier()?;
        self.name_from(language, levels, identifier)
    }

    /// A name behind its identifier.
    #[cycle(expr)]
    #[tactic(auto, unfolding(crate::specs::reader::Expressions::name_from))]
    fn name_from(
        &mut self,
        language: Language,
        levels: usize,
        identifier: Identifier,
    ) -> Result<Name, Stop>
        ensures { Reads name_view (read.name_from (read.inner language levels) (ident_view identifier) self.old) result
            self.new }
    {
        let suffix = self.optional_suffix(language, levels)?;
        let attribute = self.optional_attribute(language)?;
        Ok(Name {
            identifier,
            suffix,
            attribute,
        })
    }

    #[cycle(expr)]
    #[tactic(auto, unfolding(crate::specs::reader::Expressions::optional_suffix))]
    fn optional_suffix(&mut self, language: Language, levels: usize) -> Result<Suffix, Stop>
        ensures { Reads suffix_view (read.optional_suffix (read.inner language levels) self.old) result self.new }
    {
        if self.sees(TokenKind::LeftParen) {
            self.suffix(language, levels)
        } else {
            Ok(Suffix::Plain)
        }
    }

    #[cycle(expr)]
    #[tactic(auto, unfolding(crate::specs::reader::Expressions::suffix))]
    fn suffix(&mut self, language: Language, levels: usize) -> Result<Suffix, Stop>
        ensures { Reads suffix_view (read.suffix (read.inner language levels) self.old) result self.new }
    {
        self.expect(TokenKind::LeftParen)?;
        let first = self.inside(language, levels)?;
        match direction_at(self.peek()) {
            None => self.arguments_from(language, levels, first),
            Some(direction) => self.range_from(language, levels, first, direction),
        }
    }

    #[cycle(expr)]
    #[tactic(auto, unfolding(crate::specs::reader::Expressions::range_from))]
    fn range_from(
        &mut self,
        language: Language,
        levels: usize,
        left: Expr,
        direction: Direction,
    ) -> Result<Suffix, Stop>
        ensures { Reads suffix_view (read.range_from (read.inner language levels) (view left) direction self.old) result
            self.new }
    {
        let left = followed(self, left, direction.kind())?;
        let right = self.inside(language, levels)?;
        let range = Range {
            left,
            direction,
            right,
        };
        let range = followed(self, range, TokenKind::RightParen)?;
        Ok(Suffix::from_range(self.alloc, range)?)
    }

    #[cycle(expr)]
    #[tactic(auto, unfolding(crate::specs::reader::Expressions::arguments_from))]
    fn arguments_from(
        &mut self,
        language: Language,
        levels: usize,
        first: Expr,
    ) -> Result<Suffix, Stop>
        ensures { Reads suffix_view (read.arguments_from (read.inner language levels) (view first) self.old) result
            self.new }
    {
        let mut found = Vec::new(self.alloc);
        found.push(first)?;
        let all = self.arguments(language, levels, found)?;
        let all = followed(self, all, TokenKind::RightParen)?;
        Ok(Suffix::from_arguments(all))
    }

    #[cycle(expr)]
    fn arguments(
        &mut self,
        language: Language,
        levels: usize,
        mut found: Vec<Expr>,
    ) -> Result<Vec<Expr>, Stop>
        ensures { Reads exprs_view (input.many (input.is_kind k.Comma) (read.argument (read.inner language levels))
            (exprs_view found) self.old) result self.new }
    {
        for _turn in 0..self.left() {
            if !self.sees(TokenKind::Comma) {
                return Ok(found);
            }
            found.push(self.argument(language, levels)?)?;
        }
        Ok(found)
    }

    #[cycle(expr)]
    #[tactic(auto, unfolding(crate::specs::reader::Expressions::argument))]
    fn argument(&mut self, language: Language, levels: usize) -> Result<Expr, Stop>
        ensures { Reads view (read.argument (read.inner language levels) self.old) result self.new }
    {
        self.expect(TokenKind::Comma)?;
        self.inside(language, levels)
    }

    /// What begins with an identifier, behind it: a name, or in the wider language a qualified
    /// expression.
    #[cycle(expr)]
    #[tactic(auto, unfolding(crate::specs::reader::Expressions::named_from))]
    pub fn named(
        &mut self,
        language: Language,
        levels: usize,
        identifier: Identifier,
    ) -> Result<Expr, Stop>
        ensures { Reads view (read.named_from (read.inner language levels) (ident_view identifier) self.old) result
            self.new }
    {
        match language {
            Language::Wide if self.sees_both(TokenKind::Tick, TokenKind::LeftParen) => {
                self.qualified(levels, identifier)
            }
            Language::Wide | Language::Profile => {
                Ok(Expr::Name(self.name_from(language, levels, identifier)?))
            }
        }
    }

    /// A qualified expression (9.3.5) behind its type's name.
    #[cycle(expr)]
    #[tactic(auto, unfolding(crate::specs::reader::Expressions::qualified_from))]
    fn qualified(&mut self, levels: usize, mark: Identifier) -> Result<Expr, Stop>
        ensures { Reads view (read.qualified_from (read.inner Wide levels) (ident_view mark) self.old) result self.new }
    {
        let mark = followed(self, mark, TokenKind::Tick)?;
        let (at, elements) = self.elements(levels)?;
        Ok(Expr::qualified(mark, at, elements))
    }
}
