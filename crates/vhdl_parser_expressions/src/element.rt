//! What stands in parentheses: expressions and the elements of aggregates (IEEE 1076-2008, 9.3.3).

ghost use Rattle.std.specs.Prelude.{◌≡◌, Some};
ghost use Rattle.vhdl_lexer.specs.declared.language.Language.TheVariants.{Wide};
ghost use Rattle.vhdl_lexer.specs.declared.token.TokenKind.TheVariants as k;
ghost use Rattle.vhdl_tree.specs.View.{view, choice_view, choices_view, element_view, elements_view};
ghost use Rattle.vhdl_parser_expressions.specs.reader.Input as input;
ghost use Rattle.vhdl_parser_expressions.specs.reader.Input.{Reads};
ghost use Rattle.vhdl_parser_expressions.specs.reader.Expressions as read;

use crate::behind::followed;
use crate::operator::direction_at;
use crate::parser::{Parser, below};
use crate::stop::Stop;
use vhdl_lexer::{Language, TokenKind};
use vhdl_tree::{Choice, Direction, Element, Expr, Range};

impl Parser<'_> {
    /// What begins with a parenthesis: an expression in it, or in the wider language an aggregate.
    #[cycle(expr)]
    #[tactic(auto, unfolding(crate::specs::reader::Expressions::parenthesis, crate::specs::reader::Expressions::narrow_parenthesis))]
    pub fn parenthesis(&mut self, language: Language, levels: usize) -> Result<Expr, Stop>
        ensures { Reads view (read.parenthesis (read.inner language levels) self.old) result self.new }
    {
        match language {
            Language::Profile => {
                let at = self.expect(TokenKind::LeftParen)?;
                let inner = self.inside(language, levels)?;
                let inner = followed(self, inner, TokenKind::RightParen)?;
                Ok(Expr::in_parens(self.alloc, at, inner)?)
            }
            Language::Wide => {
                let (at, elements) = self.elements(levels)?;
                Ok(Expr::enclosed(self.alloc, at, elements)?)
            }
        }
    }

    /// The elements in a parenthesis (9.3.3), and where that starts.
    #[cycle(expr)]
    #[tactic(auto, unfolding(crate::specs::reader::Expressions::elements))]
    pub fn elements(&mut self, levels: usize) -> Result<(usize, Vec<Element>), Stop>
        ensures { Reads (λ p. (p.0, elements_view p.1)) (read.elements (read.inner Wide levels) self.old) result
            self.new }
    {
        let at = self.expect(TokenKind::LeftParen)?;
        below(levels)?;
        let mut found = Vec::new(self.alloc);
        found.push(self.element(levels)?)?;
        let all = self.more_elements(levels, found)?;
        let all = followed(self, all, TokenKind::RightParen)?;
        Ok((at, all))
    }

    #[cycle(expr)]
    fn more_elements(
        &mut self,
        levels: usize,
        mut found: Vec<Element>,
    ) -> Result<Vec<Element>, Stop>
        ensures { Reads elements_view (input.many (input.is_kind k.Comma)
            (read.next_element (read.inside Wide levels)) (elements_view found) self.old) result self.new }
    {
        for _turn in 0..self.left() {
            if !self.sees(TokenKind::Comma) {
                return Ok(found);
            }
            found.push(self.next_element(levels)?)?;
        }
        Ok(found)
    }

    #[cycle(expr)]
    #[tactic(auto, unfolding(crate::specs::reader::Expressions::next_element))]
    fn next_element(&mut self, levels: usize) -> Result<Element, Stop>
        ensures { Reads element_view (read.next_element (read.inside Wide levels) self.old) result self.new }
    {
        self.expect(TokenKind::Comma)?;
        self.element(levels)
    }

    #[cycle(expr)]
    #[tactic(auto, unfolding(crate::specs::reader::Expressions::element_item))]
    fn element(&mut self, levels: usize) -> Result<Element, Stop>
        ensures { Reads element_view (read.element_item (read.inside Wide levels) self.old) result self.new }
    {
        if self.sees(TokenKind::Others) {
            let at = self.expect(TokenKind::Others)?;
            return self.chosen_element(levels, Choice::Others { at });
        }
        let first = self.inside(Language::Wide, levels)?;
        self.element_behind(levels, first)
    }

    /// An element behind its first expression, which is a choice or the value.
    #[cycle(expr)]
    #[tactic(auto, unfolding(crate::specs::reader::Expressions::element_behind))]
    fn element_behind(&mut self, levels: usize, first: Expr) -> Result<Element, Stop>
        ensures { Reads element_view (read.element_behind (read.inside Wide levels) (view first) self.old) result
            self.new }
    {
        if let Some(direction) = direction_at(self.peek()) {
            let first = self.range_choice(levels, first, direction)?;
            return self.chosen_element(levels, first);
        }
        if self.sees(TokenKind::Bar) || self.sees(TokenKind::Arrow) {
            return self.chosen_element(levels, Choice::Expr(first));
        }
        Ok(Element::new(Vec::new(self.alloc), first))
    }

    /// An element behind its first choice.
    #[cycle(expr)]
    #[tactic(auto, unfolding(crate::specs::reader::Expressions::chosen_element))]
    fn chosen_element(&mut self, levels: usize, first: Choice) -> Result<Element, Stop>
        ensures { Reads element_view (read.chosen_element (read.inside Wide levels) (choice_view first) self.old) result
            self.new }
    {
        let mut found = Vec::new(self.alloc);
        found.push(first)?;
        let choices = self.more_choices(levels, found)?;
        let choices = followed(self, choices, TokenKind::Arrow)?;
        let value = self.inside(Language::Wide, levels)?;
        Ok(Element::new(choices, value))
    }

    #[cycle(expr)]
    fn more_choices(&mut self, levels: usize, mut found: Vec<Choice>) -> Result<Vec<Choice>, Stop>
        ensures { Reads choices_view (input.many (input.is_kind k.Bar)
            (read.next_choice (read.inside Wide levels)) (choices_view found) self.old) result self.new }
    {
        for _turn in 0..self.left() {
            if !self.sees(TokenKind::Bar) {
                return Ok(found);
            }
            found.push(self.next_choice(levels)?)?;
        }
        Ok(found)
    }

    #[cycle(expr)]
    #[tactic(auto, unfolding(crate::specs::reader::Expressions::next_choice))]
    fn next_choice(&mut self, levels: usize) -> Result<Choice, Stop>
        ensures { Reads choice_view (read.next_choice (read.inside Wide levels) self.old) result self.new }
    {
        self.expect(TokenKind::Bar)?;
        self.choice_inside(levels)
    }

    /// A choice of an element.
    #[cycle(expr)]
    #[tactic(auto, unfolding(crate::specs::reader::Expressions::choice_of, crate::specs::reader::Expressions::choice_from))]
    fn choice_inside(&mut self, levels: usize) -> Result<Choice, Stop>
        ensures { Reads choice_view (read.choice_of (read.inside Wide levels) Wide self.old) result self.new }
    {
        if self.sees(TokenKind::Others) {
            let at = self.expect(TokenKind::Others)?;
            return Ok(Choice::Others { at });
        }
        let left = self.inside(Language::Wide, levels)?;
        match direction_at(self.peek()) {
            None => Ok(Choice::Expr(left)),
            Some(direction) => self.range_choice(levels, left, direction),
        }
    }

    /// A range as a choice of an element, behind its left bound.
    #[cycle(expr)]
    fn range_choice(
        &mut self,
        levels: usize,
        left: Expr,
        direction: Direction,
    ) -> Result<Choice, Stop>
        ensures { Reads choice_view (read.choice_by (read.inside Wide levels) (view left) (Some direction) self.old)
            result self.new }
    {
        let left = followed(self, left, direction.kind())?;
        let right = self.inside(Language::Wide, levels)?;
        Ok(Choice::Range(Range {
            left,
            direction,
            right,
        }))
    }
}
