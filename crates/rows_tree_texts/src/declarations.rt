//! Declarations and interfaces.

use crate::expressions::{push_default, push_discrete_range, push_expr, push_value};
use crate::kinds::push_kinds;
use crate::words::{Piece, push_end, push_identifier, push_identifiers, push_if, push_list};
use rows_calls::Text;
use vhdl_tree::{
    Component, Constants, Constraint, Declaration, Enumeration, Generic, Identifier, Port,
    ProcessDeclaration, Signals, Subtype, SubtypeDeclaration, Value, Variables,
};

fn push_subtype(out: &mut Text, subtype: &Subtype) {
    push_identifier(out, &subtype.mark);
    if let Some(constraint) = &subtype.constraint {
        push_constraint(out, constraint);
    }
}

fn push_constraint(out: &mut Text, constraint: &Constraint) {
    match constraint {
        Constraint::Index(range) => {
            out.push(" (");
            push_discrete_range(out, range);
            out.push(")");
        }
        Constraint::Range(range) => {
            out.push(" range ");
            push_discrete_range(out, range);
        }
    }
}

/// Adds the generics and the ports of an entity or a component, if it has them.
pub fn push_interface(out: &mut Text, generics: &Option<Vec<Generic>>, ports: &Option<Vec<Port>>) {
    if let Some(generics) = generics {
        push_list(out, [" generic (", "; "], generics);
        out.push(");");
    }
    if let Some(ports) = ports {
        push_list(out, [" port (", "; "], ports);
        out.push(");");
    }
}

impl Piece for Generic {
    fn push(&self, out: &mut Text) {
        push_if(out, self.constant_word, "constant ");
        push_identifiers(out, &self.names);
        out.push(" : ");
        push_if(out, self.in_word, "in ");
        push_subtype(out, &self.subtype);
        if let Some(default) = &self.default {
            out.push(" := ");
            push_expr(out, default);
        }
    }
}

impl Piece for Port {
    fn push(&self, out: &mut Text) {
        push_if(out, self.signal_word, "signal ");
        push_identifiers(out, &self.names);
        out.push(" : ");
        if let Some(mode) = self.mode {
            out.push_named(&mode);
            out.push(" ");
        }
        push_subtype(out, &self.subtype);
        push_default(out, &self.default);
    }
}

/// Adds `names : subtype` behind a word.
fn push_objects(out: &mut Text, word: &str, names: &[Identifier], subtype: &Subtype) {
    out.push(word);
    push_identifiers(out, names);
    out.push(" : ");
    push_subtype(out, subtype);
}

/// Adds a declaration of an architecture, with a space before it.
pub fn push_declaration(out: &mut Text, declaration: &Declaration) {
    match declaration {
        Declaration::Signals(signals) => push_signals(out, signals),
        Declaration::Constants(constants) => push_constants(out, constants),
        Declaration::Enumeration(enumeration) => push_enumeration(out, enumeration),
        Declaration::Component(component) => push_component(out, component),
        Declaration::Subtype(declared) => push_declared_subtype(out, declared),
        Declaration::Attribute(text) => push_kinds(out, " attribute", text),
    }
}

/// Adds a declaration of a process, with a space before it.
pub fn push_process_declaration(out: &mut Text, declaration: &ProcessDeclaration) {
    match declaration {
        ProcessDeclaration::Variables(variables) => push_variables(out, variables),
        ProcessDeclaration::Constants(constants) => push_constants(out, constants),
        ProcessDeclaration::Enumeration(enumeration) => push_enumeration(out, enumeration),
        ProcessDeclaration::Subtype(declared) => push_declared_subtype(out, declared),
    }
}

fn push_signals(out: &mut Text, signals: &Signals) {
    push_objects(out, " signal ", &signals.names, &signals.subtype);
    push_default(out, &signals.default);
    out.push(";");
}

fn push_variables(out: &mut Text, variables: &Variables) {
    push_objects(out, " variable ", &variables.names, &variables.subtype);
    push_default(out, &variables.default);
    out.push(";");
}

fn push_constants(out: &mut Text, constants: &Constants) {
    push_objects(out, " constant ", &constants.names, &constants.subtype);
    out.push(" := ");
    push_value(out, &constants.value);
    out.push(";");
}

fn push_declared_subtype(out: &mut Text, declared: &SubtypeDeclaration) {
    out.push(" subtype ");
    push_identifier(out, &declared.name);
    out.push(" is ");
    push_subtype(out, &declared.subtype);
    out.push(";");
}

fn push_enumeration(out: &mut Text, enumeration: &Enumeration) {
    out.push(" type ");
    push_identifier(out, &enumeration.name);
    out.push(" is (");
    push_identifiers(out, &enumeration.literals);
    out.push(");");
}

fn push_component(out: &mut Text, component: &Component) {
    out.push(" component ");
    push_identifier(out, &component.name);
    push_if(out, component.is_word, " is");
    push_interface(out, &component.generics, &component.ports);
    push_end(out, " end component", &component.end_name);
}
