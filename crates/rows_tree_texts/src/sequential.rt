//! Sequential statements.

use crate::expressions::{push_choices, push_discrete_range, push_expr, push_name, push_value};
use crate::kinds::push_kinds;
use crate::words::{push_at, push_end, push_identifier, push_label};
use rows_calls::Text;
use vhdl_tree::{Branch, Case, For, If, Name, Sequential, Statement, Value};

/// Adds statements, with a space before each.
#[cycle(statement)]
pub fn push_sequentials(out: &mut Text, statements: &[Sequential]) {
    for sequential in statements {
        out.push(" ");
        push_label(out, &sequential.label);
        push_statement(out, &sequential.statement);
    }
}

#[cycle(statement)]
fn push_statement(out: &mut Text, statement: &Statement) {
    match statement {
        Statement::Null { at } => {
            push_at(out, b"null", *at);
            out.push(";");
        }
        Statement::SignalAssignment { target, value } => push_assigned(out, target, " <= ", value),
        Statement::VariableAssignment { target, value } => {
            push_assigned(out, target, " := ", value)
        }
        Statement::ConditionalAssignment {
            is_variable,
            target,
            branches,
            otherwise,
        } => {
            push_name(out, target);
            out.push(if *is_variable { " :=" } else { " <=" });
            push_conditional(out, branches, otherwise);
        }
        Statement::If(found) => push_if_statement(out, found),
        Statement::Case(found) => push_case(out, found),
        Statement::For(found) => push_for(out, found),
        Statement::Assert(text) => push_kinds(out, "assert", text),
        Statement::Report(text) => push_kinds(out, "report", text),
    }
}

fn push_assigned(out: &mut Text, target: &Name, delimiter: &str, value: &Value) {
    push_name(out, target);
    out.push(delimiter);
    push_value(out, value);
    out.push(";");
}

/// Adds what is assigned under conditions, and the end of the assignment.
pub fn push_conditional(out: &mut Text, branches: &[Branch], otherwise: &Option<Value>) {
    let mut before: &[u8] = b" ";
    for branch in branches {
        out.push_bytes(before);
        push_value(out, &branch.value);
        out.push(" when ");
        push_expr(out, &branch.condition);
        before = b" else ";
    }
    if let Some(value) = otherwise {
        out.push_bytes(before);
        push_value(out, value);
    }
    out.push(";");
}

#[cycle(statement)]
fn push_if_statement(out: &mut Text, found: &If) {
    push_at(out, b"if", found.at);
    let mut before: &[u8] = b" ";
    for branch in &found.branches {
        out.push_bytes(before);
        push_expr(out, &branch.condition);
        out.push(" then");
        push_sequentials(out, &branch.statements);
        before = b" elsif ";
    }
    if let Some(statements) = &found.otherwise {
        out.push(" else");
        push_sequentials(out, statements);
    }
    push_end(out, " end if", &found.end_label);
}

#[cycle(statement)]
fn push_case(out: &mut Text, found: &Case) {
    push_at(out, b"case", found.at);
    out.push(" ");
    push_expr(out, &found.selector);
    out.push(" is");
    for alternative in &found.alternatives {
        out.push(" when ");
        push_choices(out, &alternative.choices);
        out.push(" =>");
        push_sequentials(out, &alternative.statements);
    }
    push_end(out, " end case", &found.end_label);
}

#[cycle(statement)]
fn push_for(out: &mut Text, found: &For) {
    push_at(out, b"for", found.at);
    out.push(" ");
    push_identifier(out, &found.parameter);
    out.push(" in ");
    push_discrete_range(out, &found.range);
    out.push(" loop");
    push_sequentials(out, &found.statements);
    push_end(out, " end loop", &found.end_label);
}
