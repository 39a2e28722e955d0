//! Concurrent statements.

use crate::declarations::push_process_declaration;
use crate::expressions::{
    push_choices, push_discrete_range, push_expr, push_map, push_name, push_value,
};
use crate::kinds::push_kinds;
use crate::sequential::{push_conditional, push_sequentials};
use crate::words::{Piece, push_at, push_end, push_identifier, push_if, push_label, push_list};
use rows_calls::Text;
use vhdl_tree::{
    Assertion, Assignment, Concurrent, Generate, Instance, Instantiated, Process, Scheme,
    SelectedAssignment, Sensitivity, Wait, Waveform,
};

/// Adds statements, with a space before each.
#[cycle(concurrent)]
pub fn push_concurrents(out: &mut Text, statements: &[Concurrent]) {
    for statement in statements {
        out.push(" ");
        push_concurrent(out, statement);
    }
}

#[cycle(concurrent)]
fn push_concurrent(out: &mut Text, statement: &Concurrent) {
    match statement {
        Concurrent::Assignment(assignment) => push_assignment(out, assignment),
        Concurrent::Selected { label, assignment } => {
            push_label(out, label);
            push_selected(out, assignment);
        }
        Concurrent::Process { label, process } => {
            push_label(out, label);
            push_process(out, process);
        }
        Concurrent::Instance { label, instance } => {
            push_identifier(out, label);
            push_instance(out, instance);
        }
        Concurrent::Generate(generate) => push_generate(out, generate),
        Concurrent::Assert(assertion) => push_assertion(out, assertion),
    }
}

fn push_assignment(out: &mut Text, assignment: &Assignment) {
    push_label(out, &assignment.label);
    push_name(out, &assignment.target);
    out.push(" <=");
    push_conditional(out, &assignment.branches, &assignment.otherwise);
}

pub fn push_assertion(out: &mut Text, assertion: &Assertion) {
    push_label(out, &assertion.label);
    push_kinds(out, "assert", &assertion.text);
}

fn push_selected(out: &mut Text, selected: &SelectedAssignment) {
    push_at(out, b"with", selected.at);
    out.push(" ");
    push_expr(out, &selected.selector);
    out.push(" select ");
    push_name(out, &selected.target);
    push_list(out, [" <= ", ", "], &selected.waveforms);
    out.push(";");
}

impl Piece for Waveform {
    fn push(&self, out: &mut Text) {
        push_value(out, &self.value);
        out.push(" when ");
        push_choices(out, &self.choices);
    }
}

fn push_sensitivity(out: &mut Text, sensitivity: &Sensitivity) {
    match sensitivity {
        Sensitivity::Absent => {}
        Sensitivity::All => out.push(" (all)"),
        Sensitivity::Names(names) => {
            push_list(out, [" (", ", "], names);
            out.push(")");
        }
    }
}

fn push_process(out: &mut Text, process: &Process) {
    push_at(out, b"process", process.at);
    push_sensitivity(out, &process.sensitivity);
    push_if(out, process.is_word, " is");
    for declaration in &process.declarations {
        push_process_declaration(out, declaration);
    }
    out.push(" begin");
    if let Some(wait) = &process.wait {
        push_wait(out, wait);
    }
    push_sequentials(out, &process.statements);
    push_end(out, " end process", &process.end_label);
}

fn push_wait(out: &mut Text, wait: &Wait) {
    out.push(" ");
    push_at(out, b"wait", wait.at);
    out.push(" until ");
    push_expr(out, &wait.condition);
    out.push(";");
}

fn push_instance(out: &mut Text, instance: &Instance) {
    push_instantiated(out, &instance.unit);
    push_map(out, " generic map", &instance.generics);
    push_map(out, " port map", &instance.ports);
    out.push(";");
}

fn push_instantiated(out: &mut Text, unit: &Instantiated) {
    match unit {
        Instantiated::Entity {
            library,
            name,
            architecture,
        } => {
            out.push(" : entity ");
            push_identifier(out, library);
            out.push(".");
            push_identifier(out, name);
            if let Some(architecture) = architecture {
                out.push(" (");
                push_identifier(out, architecture);
                out.push(")");
            }
        }
        Instantiated::Component {
            component_word,
            name,
        } => {
            out.push(" : ");
            push_if(out, *component_word, "component ");
            push_identifier(out, name);
        }
    }
}

fn push_scheme(out: &mut Text, scheme: &Scheme, at: usize) {
    match scheme {
        Scheme::For { parameter, range } => {
            push_at(out, b"for", at);
            out.push(" ");
            push_identifier(out, parameter);
            out.push(" in ");
            push_discrete_range(out, range);
        }
        Scheme::If { condition } => {
            push_at(out, b"if", at);
            out.push(" ");
            push_expr(out, condition);
        }
    }
}

#[cycle(concurrent)]
fn push_generate(out: &mut Text, generate: &Generate) {
    push_identifier(out, &generate.label);
    out.push(" : ");
    push_scheme(out, &generate.scheme, generate.at);
    out.push(" generate");
    push_if(out, generate.begin_word, " begin");
    push_concurrents(out, &generate.statements);
    push_end(out, " end generate", &generate.end_label);
}
