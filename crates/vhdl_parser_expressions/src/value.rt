//! Ranges, values, choices and associations.

ghost use Rattle.std.specs.Prelude.{◌≡◌, option_map};
ghost use Rattle.vhdl_tree.specs.View.{view, ident_view, name_view, discrete_range_view, value_view, choice_view, choices_view, actual_view, association_view, associations_view};
ghost use Rattle.vhdl_parser_expressions.specs.reader.Input.{Reads};
ghost use Rattle.vhdl_parser_expressions.specs.reader.Expressions as expressions;
ghost use Rattle.vhdl_parser_expressions.specs.reader.Values as read;

use crate::behind::followed;
use crate::list::separated;
use crate::operator::direction_at;
use crate::parser::Parser;
use crate::stop::Stop;
use vhdl_lexer::{Language, TokenKind};
use vhdl_tree::{Actual, Association, Choice, DiscreteRange, Expr, Identifier, Name, Range, Value};

impl Parser<'_> {
    /// A range (IEEE 1076-2008, 5.2.1), or in the wider language a name that stands for one
    /// (5.3.2), in which so many levels may be opened.
    #[tactic(auto, unfolding(crate::specs::reader::Values::discrete_range))]
    pub fn discrete_range(
        &mut self,
        language: Language,
        levels: usize,
    ) -> Result<DiscreteRange, Stop>
        ensures { Reads discrete_range_view (read.discrete_range language levels self.old) result self.new }
    {
        let left = self.expr(language, levels)?;
        let Some(direction) = direction_at(self.peek()) else {
            return self.range_by_name(language, left.into_name(self.alloc));
        };
        let left = followed(self, left, direction.kind())?;
        let right = self.expr(language, levels)?;
        Ok(DiscreteRange::Bounds(Range {
            left,
            direction,
            right,
        }))
    }

    /// A lone expression where a range has to stand, by the name that it is.
    fn range_by_name(
        &mut self,
        language: Language,
        found: Option<Name>,
    ) -> Result<DiscreteRange, Stop>
        ensures { Reads discrete_range_view (read.range_by_name language (option_map name_view found) self.old) result
            self.new }
    {
        match (language, found) {
            (Language::Wide, Some(name)) => Ok(DiscreteRange::Name(name)),
            _ => Err(self.refuse()),
        }
    }

    /// A value, which is an expression or `( others => expression )` (9.3.3), in which so many
    /// levels may be opened.
    #[tactic(auto, unfolding(crate::specs::reader::Values::value))]
    pub fn value(&mut self, language: Language, levels: usize) -> Result<Value, Stop>
        ensures { Reads value_view (read.value language levels self.old) result self.new }
    {
        match language {
            Language::Profile if self.sees_both(TokenKind::LeftParen, TokenKind::Others) => {
                self.others_value(levels)
            }
            Language::Profile => Ok(Value::Expr(self.expr(Language::Profile, levels)?)),
            Language::Wide => Ok(self.expr(Language::Wide, levels)?.into_value()),
        }
    }

    #[tactic(auto, unfolding(crate::specs::reader::Values::others_value))]
    fn others_value(&mut self, levels: usize) -> Result<Value, Stop>
        ensures { Reads value_view (read.others_value levels self.old) result self.new }
    {
        let at = self.expect(TokenKind::LeftParen)?;
        self.expect(TokenKind::Others)?;
        self.expect(TokenKind::Arrow)?;
        let element = self.inside(Language::Profile, levels)?;
        let element = followed(self, element, TokenKind::RightParen)?;
        Ok(Value::Others { at, element })
    }

    /// The choices of an alternative (10.9), with bars between, in which so many levels may be
    /// opened.
    pub fn choices(&mut self, language: Language, levels: usize) -> Result<Vec<Choice>, Stop>
        ensures { Reads choices_view (read.choices language levels self.old) result self.new }
    {
        separated(self, TokenKind::Bar, |parser| {
            parser.choice(language, levels)
        })
    }

    #[tactic(auto, unfolding(crate::specs::reader::Values::choice_in, crate::specs::reader::Expressions::choice_of))]
    fn choice(&mut self, language: Language, levels: usize) -> Result<Choice, Stop>
        ensures { Reads choice_view (read.choice_in language levels self.old) result self.new }
    {
        if self.sees(TokenKind::Others) {
            let at = self.expect(TokenKind::Others)?;
            return Ok(Choice::Others { at });
        }
        let left = self.expr(language, levels)?;
        self.choice_from(language, levels, left)
    }

    /// A choice behind an expression, which in the wider language may begin a range.
    #[tactic(auto, unfolding(crate::specs::reader::Expressions::choice_from))]
    fn choice_from(&mut self, language: Language, levels: usize, left: Expr) -> Result<Choice, Stop>
        ensures { Reads choice_view
            (expressions.choice_from (expressions.expr language levels) language (view left) self.old) result self.new }
    {
        match (language, direction_at(self.peek())) {
            (Language::Wide, Some(direction)) => {
                let left = followed(self, left, direction.kind())?;
                let right = self.expr(language, levels)?;
                Ok(Choice::Range(Range {
                    left,
                    direction,
                    right,
                }))
            }
            _ => Ok(Choice::Expr(left)),
        }
    }

    /// Associations (6.5.7) with commas between, in which so many levels may be opened.
    pub fn associations(
        &mut self,
        language: Language,
        levels: usize,
    ) -> Result<Vec<Association>, Stop>
        ensures { Reads associations_view (read.associations language levels self.old) result self.new }
    {
        separated(self, TokenKind::Comma, |parser| {
            parser.association(language, levels)
        })
    }

    #[tactic(auto, unfolding(crate::specs::reader::Values::association))]
    fn association(&mut self, language: Language, levels: usize) -> Result<Association, Stop>
        ensures { Reads association_view (read.association language levels self.old) result self.new }
    {
        let formal = self.optional_formal()?;
        let actual = self.actual(language, levels)?;
        Ok(Association { formal, actual })
    }

    /// `id =>`, if it comes next.
    #[tactic(auto, unfolding(crate::specs::reader::Values::optional_formal, crate::specs::reader::Values::formal))]
    fn optional_formal(&mut self) -> Result<Option<Identifier>, Stop>
        ensures { Reads (option_map ident_view) (read.optional_formal self.old) result self.new }
    {
        if !self.sees_both(TokenKind::Identifier, TokenKind::Arrow) {
            return Ok(None);
        }
        let formal = self.identifier()?;
        Ok(Some(followed(self, formal, TokenKind::Arrow)?))
    }

    #[tactic(auto, unfolding(crate::specs::reader::Values::actual_of))]
    fn actual(&mut self, language: Language, levels: usize) -> Result<Actual, Stop>
        ensures { Reads actual_view (read.actual_of language levels self.old) result self.new }
    {
        if self.sees(TokenKind::Open) {
            let at = self.expect(TokenKind::Open)?;
            return Ok(Actual::Open { at });
        }
        Ok(Actual::Expr(self.expr(language, levels)?))
    }
}
