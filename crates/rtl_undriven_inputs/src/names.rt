//! The names that the lines of a stimulus have.

ghost use Rattle.std.specs.Prelude.{◌≡◌, ◌||◌, map, option_map, bytes_eq, IfOk, OnOk};
ghost use Rattle.std.specs.List.{list_any};
ghost use Rattle.rtl_stim_lines.specs.Forms as forms;
ghost use Rattle.rtl_stim_lines.specs.Inputs as inputs;
ghost use Rattle.rtl_stim_lines.specs.Lines as lines;
ghost use Rattle.rtl_stim_lines.specs.Lines.{Word};
ghost use Rattle.rtl_undriven_inputs.specs.Naming as spec;
ghost use Rattle.rtl_undriven_inputs.specs.Kept.{has_name, AreNames};

use crate::parts::{line_of, parts_of};
use indexmap::IndexSet;
use rtl_net::NoMemory;
use rtl_stim_lines::{Form, form_of, words_of};
use std::alloc::Global;

/// Names in small letters, each once.
pub(crate) type Names = IndexSet<Vec<u8>>;

/// The name in a line of these words, if it has one.
fn name_in<'a>(words: &[&'a [u8]]) -> Option<&'a [u8]>
    ensures { option_map (λ name. name.now) result ≡ spec.name_in (forms.form_of (map (λ word. word.now) words.now)) }
{
    match form_of(words) {
        Some(form) => match form {
            Form::At { name, .. } => Some(name),
            Form::Clock { name, .. } => Some(name),
            Form::Stop { .. } => None,
        },
        None => None,
    }
}

/// Puts a name to the others.
fn add_name(alloc: Global, name: &[u8], names: &mut Names) -> Result<(), NoMemory>
    ensures { OnOk result ((letters : Word) → has_name letters names.new
        ≡ (has_name letters names.old || bytes_eq letters (inputs.small name.now))) }
{
    names.insert(name.to_ascii_lowercase(alloc)?)?;
    Ok(())
}

/// Puts the name in a line to the others.
fn add_line(alloc: Global, line: &[u8], names: &mut Names) -> Result<(), NoMemory>
    ensures { OnOk result ((letters : Word) → has_name letters names.new
        ≡ (has_name letters names.old || spec.line_names letters line.now)) }
{
    let words = words_of(alloc, line)?;
    match name_in(&words) {
        Some(name) => add_name(alloc, name, names),
        None => Ok(()),
    }
}

/// The names in the lines of a text. It takes memory for each line.
pub(crate) fn names_of(alloc: Global, text: &[u8]) -> Result<Names, NoMemory>
    ensures { IfOk result (λ names. AreNames text.now names) }
{
    let mut names = IndexSet::new(alloc);
    let parts = parts_of(alloc, text)?;
    add_parts(alloc, &parts, &mut names)?;
    Ok(names)
}

/// Puts the names in the lines that these parts are to the others.
fn add_parts(alloc: Global, parts: &[&[u8]], names: &mut Names) -> Result<(), NoMemory>
    ensures { OnOk result ((letters : Word) → has_name letters names.new
        ≡ (has_name letters names.old
        || list_any (spec.line_names letters) (lines.as_lines (map (λ part. part.now) parts.now)))) }
{
    let mut left = parts.len();
    for part in parts {
        left -= 1;
        add_line(alloc, line_of(part, left == 0), names)?;
    }
    Ok(())
}
