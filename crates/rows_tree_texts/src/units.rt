//! Design units and files.

use crate::concurrent::{push_assertion, push_concurrents};
use crate::declarations::{push_declaration, push_interface};
use crate::kinds::push_kinds;
use crate::words::{
    Piece, push_at, push_end, push_identifier, push_identifiers, push_if, push_list,
};
use rows_calls::Text;
use vhdl_tree::{
    Architecture, Assertion, ContextItem, DesignUnit, Entity, File, LibraryUnit, Selected,
};

/// Adds the units of a file, with a space between.
pub fn push_file(out: &mut Text, file: &File) {
    push_list(out, ["", " "], &file.units);
}

impl Piece for DesignUnit {
    fn push(&self, out: &mut Text) {
        for item in &self.context {
            push_context_item(out, item);
        }
        match &self.unit {
            LibraryUnit::Entity(entity) => push_entity(out, entity),
            LibraryUnit::Architecture(body) => push_architecture(out, body),
        }
    }
}

fn push_context_item(out: &mut Text, item: &ContextItem) {
    match item {
        ContextItem::Library(names) => {
            out.push("library ");
            push_identifiers(out, names);
        }
        ContextItem::Use(names) => push_list(out, ["use ", ", "], names),
    }
    out.push("; ");
}

impl Piece for Selected {
    fn push(&self, out: &mut Text) {
        push_identifier(out, &self.library);
        out.push(".");
        push_identifier(out, &self.name);
        out.push(".all");
    }
}

fn push_entity(out: &mut Text, entity: &Entity) {
    push_at(out, b"entity", entity.at);
    out.push(" ");
    push_identifier(out, &entity.name);
    out.push(" is");
    push_interface(out, &entity.generics, &entity.ports);
    for text in &entity.attributes {
        push_kinds(out, " attribute", text);
    }
    push_entity_statements(out, &entity.statements);
    out.push(" end");
    push_if(out, entity.end_word, " entity");
    push_end(out, "", &entity.end_name);
}

/// Adds `begin` and the statements of an entity, if they are there.
fn push_entity_statements(out: &mut Text, statements: &Option<Vec<Assertion>>) {
    if let Some(statements) = statements {
        out.push(" begin");
        for statement in statements {
            out.push(" ");
            push_assertion(out, statement);
        }
    }
}

fn push_architecture(out: &mut Text, body: &Architecture) {
    push_at(out, b"architecture", body.at);
    out.push(" ");
    push_identifier(out, &body.name);
    out.push(" of ");
    push_identifier(out, &body.entity);
    out.push(" is");
    for declaration in &body.declarations {
        push_declaration(out, declaration);
    }
    out.push(" begin");
    push_concurrents(out, &body.statements);
    out.push(" end");
    push_if(out, body.end_word, " architecture");
    push_end(out, "", &body.end_name);
}
