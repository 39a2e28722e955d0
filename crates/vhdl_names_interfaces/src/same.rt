//! Whether two expressions are the same text, token for token apart from case (IEEE 1076-2008, 4.10
//! and 6.8).

ghost use Rattle.std.specs.Prelude.{◌≡◌, ◌==◌, ◌&&◌, option_map};
ghost use Rattle.std.specs.Char.{to_ascii_lowercase};
ghost use Rattle.vhdl_names_interfaces.specs.Parts.{same_chain, same_link, same_element};
ghost use Rattle.vhdl_names_rules.specs.SameText as rules;
ghost use Rattle.vhdl_tree.specs.Lexeme as tree;
ghost use Rattle.vhdl_tree.specs.View.{view, ident_view, attribute_view, choice_view, element_view, range_view, suffix_view};

use crate::alike::Alike;
use vhdl_lexer::TokenKind;
use vhdl_tree::{
    Attribute, Chain, Choice, Element, Expr, Identifier, Link, Literal, Name, Range, Suffix,
};

impl Alike for Identifier {
    ghost alike = { λ a b. rules.same_name (ident_view a) (ident_view b) };

    fn is_like(&self, other: &Identifier) -> bool {
        self.text.as_slice() == other.text.as_slice()
    }
}

impl Alike for Attribute {
    ghost alike = { λ a b. rules.same_attribute (attribute_view a) (attribute_view b) };

    fn is_like(&self, other: &Attribute) -> bool {
        match (self, other) {
            (Attribute::Name(a), Attribute::Name(b)) => a.is_like(b),
            (Attribute::Range { .. }, Attribute::Range { .. }) => true,
            _ => false,
        }
    }
}

/// Whether two literals are the same apart from case.
fn same_literal(a: &Literal, b: &Literal) -> bool
    ensures { result ≡ rules.same_bytes a.now.text.items b.now.text.items }
{
    a.text.as_slice().eq_ignore_ascii_case(&b.text)
}

/// Whether two characters are the same apart from case.
fn same_character(a: u8, b: u8) -> bool
    ensures { result ≡ (to_ascii_lowercase a == to_ascii_lowercase b) }
{
    a.to_ascii_lowercase() == b.to_ascii_lowercase()
}

/// Whether two tokens are of one kind.
#[tactic(auto, unfolding(vhdl_tree::specs::Lexeme::same_kind))]
fn same_kind(a: TokenKind, b: TokenKind) -> bool
    ensures { result ≡ tree.same_kind a b }
{
    a == b
}

/// Whether two expressions are the same text.
#[cycle(same)]
pub fn same_expr(a: &Expr, b: &Expr) -> bool
    ensures { result ≡ rules.same_expr (view a.now) (view b.now) }
{
    match (a, b) {
        (Expr::Integer(a), Expr::Integer(b)) => same_literal(a, b),
        (Expr::Character { code: a, .. }, Expr::Character { code: b, .. }) => same_character(
            *a, *b,
        ),
        (Expr::StringLiteral(a), Expr::StringLiteral(b)) => same_literal(a, b),
        (Expr::BitString(a), Expr::BitString(b)) => same_literal(a, b),
        (Expr::Name(a), Expr::Name(b)) => same_named(a, b),
        (Expr::Parens { inner: a, .. }, Expr::Parens { inner: b, .. }) => same_expr(a, b),
        (Expr::Not { operand: a, .. }, Expr::Not { operand: b, .. }) => same_expr(a, b),
        (Expr::Abs { operand: a, .. }, Expr::Abs { operand: b, .. }) => same_expr(a, b),
        (Expr::Power(a), Expr::Power(b)) => {
            same_expr(&a.base, &b.base) && same_expr(&a.exponent, &b.exponent)
        }
        (
            Expr::Signed {
                sign,
                operand: a,
                ..
            },
            Expr::Signed {
                sign: other,
                operand: b,
                ..
            },
        ) => { same_kind(sign.kind(), other.kind()) && same_expr(a, b) }
        (Expr::Chain(a), Expr::Chain(b)) => same_chain(a, b),
        (Expr::Aggregate { elements: a, .. }, Expr::Aggregate { elements: b, .. }) => {
            same_elements(a, b)
        }
        (
            Expr::Qualified {
                mark,
                elements: a,
                ..
            },
            Expr::Qualified {
                mark: other,
                elements: b,
                ..
            },
        ) => { mark.is_like(other) && same_elements(a, b) }
        _ => false,
    }
}

/// Whether the elements of two aggregates are the same text.
#[cycle(same)]
fn same_elements(a: &[Element], b: &[Element]) -> bool
    ensures { result ≡ rules.same_each (λ x y. same_element (element_view x) (element_view y)) a.now b.now }
{
    if a.len() != b.len() {
        return false;
    }
    for (place, element) in a.iter().enumerate() {
        if !same_element(element, &b[place]) {
            return false;
        }
    }
    true
}

/// Whether two elements are: their choices, and their values.
#[cycle(same)]
fn same_element(a: &Element, b: &Element) -> bool
    ensures { result ≡ same_element (element_view a.now) (element_view b.now) }
{
    same_choices(&a.choices, &b.choices) && same_expr(&a.value, &b.value)
}

/// Whether the choices of two elements are.
#[cycle(same)]
fn same_choices(a: &[Choice], b: &[Choice]) -> bool
    ensures { result ≡ rules.same_each (λ x y. rules.same_choice (choice_view x) (choice_view y)) a.now b.now }
{
    if a.len() != b.len() {
        return false;
    }
    for (place, choice) in a.iter().enumerate() {
        if !same_choice(choice, &b[place]) {
            return false;
        }
    }
    true
}

/// Whether two choices are.
#[cycle(same)]
fn same_choice(a: &Choice, b: &Choice) -> bool
    ensures { result ≡ rules.same_choice (choice_view a.now) (choice_view b.now) }
{
    match (a, b) {
        (Choice::Expr(a), Choice::Expr(b)) => same_expr(a, b),
        (Choice::Range(a), Choice::Range(b)) => same_range(a, b),
        (Choice::Others { .. }, Choice::Others { .. }) => true,
        _ => false,
    }
}

/// Whether two names are the same text.
#[cycle(same)]
pub fn same_named(a: &Name, b: &Name) -> bool
    ensures { result ≡ (rules.same_name (ident_view a.now.identifier) (ident_view b.now.identifier)
        && rules.same_suffix (suffix_view a.now.suffix) (suffix_view b.now.suffix)
        && rules.same_option rules.same_attribute (option_map attribute_view a.now.attribute)
        (option_map attribute_view b.now.attribute)) }
{
    a.identifier.is_like(&b.identifier)
        && same_suffix(&a.suffix, &b.suffix)
        && a.attribute.is_like(&b.attribute)
}

/// Whether two chains of operators are.
#[cycle(same)]
fn same_chain(a: &Chain, b: &Chain) -> bool
    ensures { result ≡ same_chain a.now b.now }
{
    same_expr(&a.first, &b.first) && same_link(&a.second, &b.second) && same_links(&a.rest, &b.rest)
}

/// Whether two operators and their right operands are.
#[cycle(same)]
fn same_link(a: &Link, b: &Link) -> bool
    ensures { result ≡ same_link a.now b.now }
{
    same_kind(a.operator.kind(), b.operator.kind()) && same_expr(&a.operand, &b.operand)
}

/// Whether the further operators of two chains are, with their right operands.
#[cycle(same)]
fn same_links(a: &[Link], b: &[Link]) -> bool
    ensures { result ≡ rules.same_each same_link a.now b.now }
{
    if a.len() != b.len() {
        return false;
    }
    for (place, link) in a.iter().enumerate() {
        if !same_link(link, &b[place]) {
            return false;
        }
    }
    true
}

/// Whether the same stands in parentheses after two names.
#[cycle(same)]
fn same_suffix(a: &Suffix, b: &Suffix) -> bool
    ensures { result ≡ rules.same_suffix (suffix_view a.now) (suffix_view b.now) }
{
    match (a, b) {
        (Suffix::Plain, Suffix::Plain) => true,
        (Suffix::Arguments(a), Suffix::Arguments(b)) => same_exprs(a, b),
        (Suffix::Range(a), Suffix::Range(b)) => same_range(a, b),
        (Suffix::Arguments(_), Suffix::Plain) => false,
        (Suffix::Arguments(_), Suffix::Range(_)) => false,
        _ => false,
    }
}

/// Whether arguments are the same.
#[cycle(same)]
fn same_exprs(a: &[Expr], b: &[Expr]) -> bool
    ensures { result ≡ rules.same_each (λ x y. rules.same_expr (view x) (view y)) a.now b.now }
{
    if a.len() != b.len() {
        return false;
    }
    for (place, argument) in a.iter().enumerate() {
        if !same_expr(argument, &b[place]) {
            return false;
        }
    }
    true
}

/// Whether two ranges are the same text.
#[cycle(same)]
pub fn same_range(a: &Range, b: &Range) -> bool
    ensures { result ≡ rules.same_range (range_view a.now) (range_view b.now) }
{
    same_expr(&a.left, &b.left)
        && same_kind(a.direction.kind(), b.direction.kind())
        && same_expr(&a.right, &b.right)
}
