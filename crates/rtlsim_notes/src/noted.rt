//! A note, and those that have a byte of their own.

ghost use Rattle.std.specs.Prelude.{◌≡◌, [], ◌∷◌, ◌++◌, map, IfOk, OnOk};
ghost use Rattle.std.specs.List.{list_any};
ghost use Rattle.rtlsim_findings.specs.Once.{each_new};
ghost use Rattle.rtlsim_notes.specs.Notes as spec;
ghost use Rattle.rtlsim_notes.specs.Notes.{note_view};

use rtl_net::NoMemory;
use std::alloc::Global;

/// A byte of the source, and what is said there.
#[derive(Drop)]
pub struct Note {
    pub at: usize,
    pub text: Vec<u8>,
}

/// Appends a note.
pub(crate) fn push_note(at: usize, text: Vec<u8>, notes: &mut Vec<Note>) -> Result<(), NoMemory>
    ensures { OnOk result (map note_view notes.new.items
        ≡ map note_view notes.old.items ++ spec.note at text.items ∷ []) }
{
    Ok(notes.push(Note { at, text })?)
}

/// Whether one of these notes stands at the byte of another.
fn has_beside(notes: &[Note], note: &Note) -> bool
    ensures { result ≡ list_any (spec.is_beside (note_view note.now)) (map note_view notes.now) }
{
    for other in notes {
        if note.at == other.at {
            return true;
        }
    }
    false
}

/// The same note once more.
fn copy_of(alloc: Global, note: &Note) -> Result<Note, NoMemory>
    ensures { IfOk result (λ copy. note_view copy ≡ note_view note.now) }
{
    let text = Vec::from_slice(alloc, &note.text)?;
    Ok(Note { at: note.at, text })
}

/// Of these notes those before which none stands at the same byte.
pub(crate) fn new_notes(alloc: Global, all: &[Note]) -> Result<Vec<Note>, NoMemory>
    ensures { IfOk result (λ notes. map note_view notes.items
        ≡ each_new spec.is_beside [] (map note_view all.now)) }
{
    let mut notes = Vec::new(alloc);
    let mut left = all;
    while let [note, rest @ ..] = left {
        if !has_beside(&notes, note) {
            notes.push(copy_of(alloc, note)?)?;
        }
        left = rest;
    }
    Ok(notes)
}
