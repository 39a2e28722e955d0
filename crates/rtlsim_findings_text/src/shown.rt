//! The line of a place, with a mark under it.

ghost use Rattle.std.specs.Prelude.{◌≡◌, ◌++◌, All, flat_map, map, OnOk};
ghost use Rattle.rtlsim_refusals.specs.Places as places;
ghost use Rattle.rtlsim_findings_text.specs.Marks.{IsMarked, view};
ghost use Rattle.rtlsim_findings_text.specs.Placed as spec;

use crate::places::{MarkedFile, halves_at};
use rtl_net::NoMemory;
use vhdl_source_files::cut_line;

/// Appends the line of a place, and a mark under it.
#[tactic(auto, unfolding(crate::specs::Placed::shown_text))]
pub(crate) fn push_shown(
    files: &[MarkedFile<'_>],
    place: Option<usize>,
    text: &mut Vec<u8>,
) -> Result<(), NoMemory>
    requires marked { All IsMarked files.now }
    ensures { OnOk result (text.new.items ≡ text.old.items ++ spec.shown_text (map view files.now) place) }
{
    match place {
        Some(at) => {
            let (before, after) = halves_at(files, at);
            push_marked(before, after, text)
        }
        None => Ok(()),
    }
}

/// Appends the two halves of a line, cut where it is long, and a mark where they meet.
fn push_marked(before: &[u8], after: &[u8], text: &mut Vec<u8>) -> Result<(), NoMemory>
    ensures { OnOk result (text.new.items ≡ text.old.items ++ places.halves_shown before.now after.now) }
{
    let line = cut_line(before, after);
    text.extend_from_slice(line.cut)?;
    text.extend_from_slice(line.before)?;
    text.extend_from_slice(line.after)?;
    text.extend_from_slice(line.more)?;
    text.extend_from_slice(b"\n")?;
    push_blanks(line.cut, text)?;
    push_blanks(line.before, text)?;
    text.extend_from_slice(b"^\n")?;
    Ok(())
}

/// Appends blanks as wide as these bytes.
fn push_blanks(bytes: &[u8], text: &mut Vec<u8>) -> Result<(), NoMemory>
    ensures { OnOk result (text.new.items ≡ text.old.items ++ flat_map places.blank bytes.now) }
{
    for byte in bytes {
        push_blank(*byte, text)?;
    }
    Ok(())
}

/// Appends a tab for a tab, and a space for another byte.
fn push_blank(byte: u8, text: &mut Vec<u8>) -> Result<(), NoMemory>
    ensures { OnOk result (text.new.items ≡ text.old.items ++ places.blank byte) }
{
    if byte == b'\t' {
        text.push(b'\t')?;
    } else {
        text.push(b' ')?;
    }
    Ok(())
}
