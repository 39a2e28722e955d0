//! Names and expressions.

use crate::words::{Piece, push_at, push_identifier, push_if, push_list};
use rows_calls::Text;
use vhdl_tree::{
    Actual, Association, Attribute, Chain, Choice, DiscreteRange, Element, Expr, Link, Name, Power,
    Range, Suffix, Value,
};

#[cycle(expression)]
pub fn push_expr(out: &mut Text, expr: &Expr) {
    match expr {
        Expr::Integer(literal) | Expr::StringLiteral(literal) | Expr::BitString(literal) => {
            push_at(out, &literal.text, literal.at)
        }
        Expr::Character { at, code } => push_at(out, &[b'\'', *code, b'\''], *at),
        Expr::Name(name) => push_name(out, name),
        Expr::Parens { at, inner } => {
            push_operand(out, "(", *at, inner);
            out.push(")");
        }
        Expr::Not { at, operand } => push_operand(out, "Not", *at, operand),
        Expr::Abs { at, operand } => push_operand(out, "Abs", *at, operand),
        Expr::Power(power) => push_power(out, power),
        Expr::Signed { sign, at, operand } => {
            out.push_named(sign);
            push_operand(out, "", *at, operand);
        }
        Expr::Chain(chain) => push_chain(out, chain),
        Expr::Aggregate { at, elements } => push_elements(out, *at, elements),
        Expr::Qualified { mark, at, elements } => {
            push_identifier(out, mark);
            out.push("'");
            push_elements(out, *at, elements);
        }
    }
}

/// Adds an operator, the byte at which it starts, and an operand.
#[cycle(expression)]
fn push_operand(out: &mut Text, operator: &str, at: usize, operand: &Expr) {
    push_at(out, operator.as_bytes(), at);
    out.push(" ");
    push_expr(out, operand);
}

#[cycle(expression)]
fn push_power(out: &mut Text, power: &Power) {
    out.push("{");
    push_expr(out, &power.base);
    out.push(" ");
    push_operand(out, "Power", power.at, &power.exponent);
    out.push("}");
}

#[cycle(expression)]
fn push_chain(out: &mut Text, chain: &Chain) {
    out.push("{");
    push_expr(out, &chain.first);
    push_link(out, &chain.second);
    for link in &chain.rest {
        push_link(out, link);
    }
    out.push("}");
}

#[cycle(expression)]
fn push_link(out: &mut Text, link: &Link) {
    out.push(" ");
    out.push_named(&link.operator);
    push_operand(out, "", link.at, &link.operand);
}

#[cycle(expression)]
pub fn push_name(out: &mut Text, name: &Name) {
    push_identifier(out, &name.identifier);
    push_suffix(out, &name.suffix);
    if let Some(attribute) = &name.attribute {
        out.push("'");
        push_attribute(out, attribute);
    }
}

fn push_attribute(out: &mut Text, attribute: &Attribute) {
    match attribute {
        Attribute::Name(name) => push_identifier(out, name),
        Attribute::Range { at } => push_at(out, b"range", *at),
    }
}

impl Piece for Name {
    fn push(&self, out: &mut Text) {
        push_name(out, self);
    }
}

#[cycle(expression)]
fn push_suffix(out: &mut Text, suffix: &Suffix) {
    match suffix {
        Suffix::Plain => {}
        Suffix::Arguments(all) => push_arguments(out, all),
        Suffix::Range(range) => {
            out.push(" (");
            push_range(out, range);
            out.push(")");
        }
    }
}

#[cycle(expression)]
fn push_arguments(out: &mut Text, all: &[Expr]) {
    let mut before: &[u8] = b" (";
    for argument in all {
        out.push_bytes(before);
        push_expr(out, argument);
        before = b", ";
    }
    out.push(")");
}

/// Adds the elements of an aggregate in parentheses, which start at a byte.
#[cycle(expression)]
fn push_elements(out: &mut Text, at: usize, elements: &[Element]) {
    push_at(out, b"(", at);
    let mut before: &[u8] = b" ";
    for element in elements {
        out.push_bytes(before);
        push_element(out, element);
        before = b", ";
    }
    out.push(")");
}

#[cycle(expression)]
fn push_element(out: &mut Text, element: &Element) {
    push_choices(out, &element.choices);
    push_if(out, !element.choices.is_empty(), " => ");
    push_expr(out, &element.value);
}

/// Adds choices with bars between.
#[cycle(expression)]
pub fn push_choices(out: &mut Text, choices: &[Choice]) {
    let mut before: &[u8] = b"";
    for choice in choices {
        out.push_bytes(before);
        push_choice(out, choice);
        before = b" | ";
    }
}

#[cycle(expression)]
fn push_choice(out: &mut Text, choice: &Choice) {
    match choice {
        Choice::Expr(expr) => push_expr(out, expr),
        Choice::Range(range) => push_range(out, range),
        Choice::Others { at } => push_at(out, b"others", *at),
    }
}

#[cycle(expression)]
fn push_range(out: &mut Text, range: &Range) {
    push_expr(out, &range.left);
    out.push(" ");
    out.push_named(&range.direction);
    out.push(" ");
    push_expr(out, &range.right);
}

pub fn push_discrete_range(out: &mut Text, range: &DiscreteRange) {
    match range {
        DiscreteRange::Bounds(bounds) => push_range(out, bounds),
        DiscreteRange::Name(name) => push_name(out, name),
    }
}

pub fn push_value(out: &mut Text, value: &Value) {
    match value {
        Value::Expr(expr) => push_expr(out, expr),
        Value::Others { at, element } => {
            push_at(out, b"(", *at);
            out.push(" others => ");
            push_expr(out, element);
            out.push(")");
        }
    }
}

/// Adds `:=` and a value, if there is one.
pub fn push_default(out: &mut Text, value: &Option<Value>) {
    if let Some(value) = value {
        out.push(" := ");
        push_value(out, value);
    }
}

/// Adds a map of generics or ports, if there is one.
pub fn push_map(out: &mut Text, words: &str, map: &Option<Vec<Association>>) {
    if let Some(all) = map {
        out.push(words);
        push_list(out, [" (", ", "], all);
        out.push(")");
    }
}

impl Piece for Association {
    fn push(&self, out: &mut Text) {
        if let Some(formal) = &self.formal {
            push_identifier(out, formal);
            out.push(" => ");
        }
        match &self.actual {
            Actual::Expr(expr) => push_expr(out, expr),
            Actual::Open { at } => push_at(out, b"open", *at),
        }
    }
}
