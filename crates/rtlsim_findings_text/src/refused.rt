//! The object of a source that is refused.

ghost use Rattle.std.specs.Prelude.{◌≡◌, ◌++◌, map, option_map, option_to_list, IfOk, OnOk};
ghost use Rattle.rtlsim_refusals.specs.Explained.{note_view, told_view};
ghost use Rattle.vhdl_source_files.specs.Files.{spot_view};
ghost use Rattle.rtlsim_findings_text.specs.Json.{spot_text};
ghost use Rattle.rtlsim_findings_text.specs.Marks.{Stands};
ghost use Rattle.rtlsim_findings_text.specs.Refusals as spec;

use crate::object::{push_member, push_places, push_title, spot_text};
use crate::places::PlacedByte;
use crate::values::{push_array, push_string};
use rtl_net::NoMemory;
use rtlsim_refusals::{Noted, Told, position_behind};
use std::alloc::Global;
use vhdl_source_files::FilePlace;

/// A source that is refused, as an object of JSON on one line: an object for each of its faults, of
/// which this is told. It takes memory for the text.
///
/// # Errors
///
/// Where that is refused.
pub fn refused_text(alloc: Global, faults: &[Told<'_>]) -> Result<Vec<u8>, NoMemory>
    ensures { IfOk result (λ text. text.items ≡ spec.refused_text (map told_view faults.now)) }
{
    let objects = objects(alloc, faults)?;
    let mut text = Vec::from_slice(
        alloc,
        b"{\"version\":2,\"verdict\":\"refused\",\"levels\":null,\"bound\":null,\"simulates\":null,\"faults\":",
    )?;
    push_array(&objects, false, &mut text)?;
    text.extend_from_slice(b",\"remarks\":[]}\n")?;
    Ok(text)
}

/// The objects of faults.
fn objects(alloc: Global, faults: &[Told<'_>]) -> Result<Vec<Vec<u8>>, NoMemory>
    ensures { IfOk result (λ texts. map (λ t. t.items) texts.items
        ≡ map spec.fault_text (map told_view faults.now)) }
{
    let mut texts = Vec::new(alloc);
    for told in faults {
        texts.push(fault_text(alloc, told)?)?;
    }
    Ok(texts)
}

/// The object of a fault.
#[tactic(auto, unfolding(crate::specs::Refusals::fault_text))]
fn fault_text(alloc: Global, told: &Told<'_>) -> Result<Vec<u8>, NoMemory>
    ensures { IfOk result (λ text. text.items ≡ spec.fault_text (told_view told.now)) }
{
    let mut text = Vec::new(alloc);
    push_title(told.rule, &mut text)?;
    push_member(b",\"message\":", &told.sentence, &mut text)?;
    push_member(b",\"help\":", told.help, &mut text)?;
    text.extend_from_slice(b",\"processes\":[],\"nets\":[],\"variables\":[]")?;
    let mut places = Vec::new(alloc);
    places.push(place_text(alloc, told)?)?;
    push_noted(alloc, told.notes.first, &mut places)?;
    push_noted(alloc, told.notes.second, &mut places)?;
    push_places(&places, &mut text)?;
    Ok(text)
}

/// Appends the object of the place of a note, if there is one.
fn push_noted(
    alloc: Global,
    note: Option<Noted<'_>>,
    places: &mut Vec<Vec<u8>>,
) -> Result<(), NoMemory>
    ensures { OnOk result (map (λ t. t.items) places.new.items
        ≡ map (λ t. t.items) places.old.items
        ++ map spec.noted_text (option_to_list (option_map note_view note.entry))) }
{
    let Some(note) = note else {
        return Ok(());
    };
    let mut words = Vec::new(alloc);
    push_string(note.words, &mut words)?;
    places.push(spot_text(alloc, placed(note.place), &words)?)?;
    Ok(())
}

/// A byte of a file, with where it stands.
fn placed(byte: FilePlace<'_>) -> PlacedByte<'_>
    ensures is { spot_view result.byte ≡ spot_view byte.entry }
    ensures stands { Stands result }
{
    let (before, _) = byte.halves();
    PlacedByte {
        byte,
        position: position_behind(before),
    }
}

/// The object of its place.
fn place_text(alloc: Global, told: &Told<'_>) -> Result<Vec<u8>, NoMemory>
    ensures { IfOk result (λ text. text.items
        ≡ spot_text (spot_view told.now.place) (spec.note_text told.now.below.items)) }
{
    let note = note_text(alloc, &told.below)?;
    spot_text(alloc, placed(told.place), &note)
}

/// The line that stands below the help, as a note.
fn note_text(alloc: Global, below: &[u8]) -> Result<Vec<u8>, NoMemory>
    ensures { IfOk result (λ text. text.items ≡ spec.note_text below.now) }
{
    if below.is_empty() {
        return Ok(Vec::from_slice(alloc, b"null")?);
    }
    let mut text = Vec::new(alloc);
    push_string(&below[..below.len() - 1], &mut text)?;
    Ok(text)
}
