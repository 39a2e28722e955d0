//! What assignments assign: conditional and selected waveforms (IEEE 1076-2008, 10.5,
//! 11.6).

ghost use Rattle.std.specs.Prelude.{◌≡◌};
ghost use Rattle.vhdl_lexer.specs.declared.token.TokenKind.TheVariants as k;
ghost use Rattle.vhdl_tree.specs.View.{option_expr_view, branches_view, waveform_view, waveforms_view, selected_assignment_view};
ghost use Rattle.vhdl_parser_expressions.specs.reader.Input as input;
ghost use Rattle.vhdl_parser_expressions.specs.reader.Input.{Reads};
ghost use Rattle.vhdl_parser_statements.specs.reader.Waveforms as read;
ghost use Rattle.vhdl_parser_statements.specs.reader.Waveforms.{part_view, conditional_view};

use vhdl_lexer::{Language, TokenKind};
use vhdl_parser_expressions::{Parser, Stop, followed, separated};
use vhdl_tree::{Branch, Expr, SelectedAssignment, Value, Waveform};

#[tactic(auto, unfolding(vhdl_parser_expressions::specs::reader::Input::optional, crate::specs::reader::Waveforms::condition))]
fn optional_condition(
    parser: &mut Parser<'_>,
    language: Language,
    levels: usize,
) -> Result<Option<Expr>, Stop>
    ensures { Reads option_expr_view
        (input.optional (input.is_kind k.When) (read.condition language levels) parser.old) result
        parser.new }
{
    if !parser.sees(TokenKind::When) {
        return Ok(None);
    }
    parser.expect(TokenKind::When)?;
    Ok(Some(parser.expr(language, levels)?))
}

/// A value and the condition behind it, if there is one.
#[tactic(auto, unfolding(crate::specs::reader::Waveforms::part))]
fn part(
    parser: &mut Parser<'_>,
    language: Language,
    levels: usize,
) -> Result<(Value, Option<Expr>), Stop>
    ensures { Reads part_view (read.part language levels parser.old) result parser.new }
{
    let value = parser.value(language, levels)?;
    let condition = optional_condition(parser, language, levels)?;
    Ok((value, condition))
}

#[tactic(auto, unfolding(crate::specs::reader::Waveforms::else_part))]
fn else_part(
    parser: &mut Parser<'_>,
    language: Language,
    levels: usize,
) -> Result<(Value, Option<Expr>), Stop>
    ensures { Reads part_view (read.else_part language levels parser.old) result parser.new }
{
    parser.expect(TokenKind::Else)?;
    part(parser, language, levels)
}

/// The branches behind those found, and the last value.
fn more_branches(
    parser: &mut Parser<'_>,
    language: Language,
    levels: usize,
    mut found: Vec<Branch>,
) -> Result<(Vec<Branch>, Option<Value>), Stop>
    ensures { Reads conditional_view
        (read.more_branches language levels (branches_view found) parser.old) result parser.new }
{
    for _turn in 0..parser.left() {
        if !parser.sees(TokenKind::Else) {
            return Ok((found, None));
        }
        let (value, condition) = else_part(parser, language, levels)?;
        let Some(condition) = condition else {
            return Ok((found, Some(value)));
        };
        found.push(Branch { value, condition })?;
    }
    Ok((found, None))
}

/// What is assigned: the branches, and the value where none of them holds.
#[tactic(auto, unfolding(crate::specs::reader::Waveforms::conditional_waveforms))]
pub fn conditional_waveforms(
    parser: &mut Parser<'_>,
    language: Language,
    levels: usize,
) -> Result<(Vec<Branch>, Option<Value>), Stop>
    ensures { Reads conditional_view (read.conditional_waveforms language levels parser.old) result parser.new }
{
    let (value, condition) = part(parser, language, levels)?;
    let mut found = Vec::new(parser.alloc);
    let Some(condition) = condition else {
        return Ok((found, Some(value)));
    };
    found.push(Branch { value, condition })?;
    more_branches(parser, language, levels, found)
}

#[tactic(auto, unfolding(crate::specs::reader::Waveforms::waveform))]
fn waveform(parser: &mut Parser<'_>, language: Language, levels: usize) -> Result<Waveform, Stop>
    ensures { Reads waveform_view (read.waveform language levels parser.old) result parser.new }
{
    let value = parser.value(language, levels)?;
    let value = followed(parser, value, TokenKind::When)?;
    let choices = parser.choices(language, levels)?;
    Ok(Waveform { value, choices })
}

fn waveforms(
    parser: &mut Parser<'_>,
    language: Language,
    levels: usize,
) -> Result<Vec<Waveform>, Stop>
    ensures { Reads waveforms_view (read.waveforms language levels parser.old) result parser.new }
{
    separated(
        parser,
        TokenKind::Comma,
        |parser| waveform(parser, language, levels),
    )
}

/// A selected assignment behind its label, in which so many levels may be opened.
#[tactic(auto, unfolding(crate::specs::reader::Waveforms::selected))]
pub fn selected_assignment(
    parser: &mut Parser<'_>,
    language: Language,
    levels: usize,
) -> Result<SelectedAssignment, Stop>
    ensures { Reads selected_assignment_view (read.selected language levels parser.old) result parser.new }
{
    let at = parser.expect(TokenKind::With)?;
    let selector = parser.expr(language, levels)?;
    let selector = followed(parser, selector, TokenKind::Select)?;
    let target = parser.name(language, levels)?;
    let parts = followed(parser, (selector, target), TokenKind::LessEqual)?;
    let waveforms = waveforms(parser, language, levels)?;
    let ((selector, target), waveforms) = followed(
        parser,
        (parts, waveforms),
        TokenKind::Semicolon,
    )?;
    Ok(SelectedAssignment {
        at,
        selector,
        target,
        waveforms,
    })
}
