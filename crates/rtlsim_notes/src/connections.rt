//! Notes at the associations by which instances drive a net of another scope.

ghost use Rattle.std.specs.Prelude.{◌≡◌, ◌++◌, map, OnOk, Some};
ghost use Rattle.rtlsim_notes.specs.Notes as spec;
ghost use Rattle.rtlsim_notes.specs.Notes.{note_view};
ghost use Rattle.rtlsim_notes.specs.Scopes.{scope_of_net};
ghost use Rattle.vhdl_slips.specs.Words.{read_of};

use crate::noted::{Note, push_note};
use crate::sayings::connection_text;
use crate::scopes::{child_of, instance_of, label_at, names_in, scope_of, scope_of_net};
use rtl_net::{Net, NoMemory};
use std::alloc::Global;
use vhdl_lexer::Token;
use vhdl_places::{connection, driving_port};
use vhdl_slips::Lexed;

/// Appends the note at the association that connects a process's driver to a net of another scope.
pub(crate) fn push_driver(
    alloc: Global,
    source: Lexed<'_>,
    net: &Net,
    number: usize,
    process: Option<usize>,
    notes: &mut Vec<Note>,
) -> Result<(), NoMemory>
    ensures { OnOk result (map note_view notes.new.items
        ≡ map note_view notes.old.items ++ spec.driver_notes (read_of source.entry) net.now number process) }
{
    match child_between(net, number, process) {
        Some(child) => push_connection(alloc, source, net, number, child, notes),
        None => Ok(()),
    }
}

/// The instance of the scope that declares a net in which a process of another scope stands.
fn child_between(net: &Net, number: usize, process: Option<usize>) -> Option<usize>
    ensures { result
        ≡ spec.child_between net.now (scope_of_net net.now number) (spec.scope_at net.now process) }
{
    let owner = scope_of_net(net, number)?;
    let scope = scope_of(net, process?)?;
    child_of(net.scopes(), owner, scope)
}

/// Appends the note at the association of an instance with a net.
fn push_connection(
    alloc: Global,
    source: Lexed<'_>,
    net: &Net,
    number: usize,
    child: usize,
    notes: &mut Vec<Note>,
) -> Result<(), NoMemory>
    ensures { OnOk result (map note_view notes.new.items
        ≡ map note_view notes.old.items ++ spec.connection_of (read_of source.entry) net.now number (Some child)) }
{
    let label = label_at(net.scopes(), child);
    let instance = instance_of(source, net.scopes(), child);
    let names = names_in(alloc, net, child, number)?;
    push_connected(alloc, source, label, instance, &names, notes)
}

/// Appends the note where one of these ports of an instance is connected.
fn push_connected(
    alloc: Global,
    source: Lexed<'_>,
    label: &[u8],
    instance: &[Token],
    names: &[&[u8]],
    notes: &mut Vec<Note>,
) -> Result<(), NoMemory>
    ensures { OnOk result (map note_view notes.new.items ≡ map note_view notes.old.items
        ++ spec.connected_by (read_of source.entry) label.now instance.now (map (λ n. n.now) names.now)) }
{
    let port = driving_port(source, instance, names);
    let Some(token) = connection(source.text, port, instance) else {
        return Ok(());
    };
    let text = connection_text(alloc, label, port)?;
    push_note(token.start as usize, text, notes)
}
