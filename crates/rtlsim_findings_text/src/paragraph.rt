//! The paragraph of a finding.

ghost use Rattle.std.specs.Prelude.{◌≡◌, ◌++◌, All, codes, decimal, flat_map, map, IfOk, OnOk};
ghost use Rattle.rtl_check.specs.Views.{fault_view};
ghost use Rattle.rtlsim_refusals.specs.Explained.{help_line};
ghost use Rattle.rtlsim_findings.specs.Findings.{finding_view};
ghost use Rattle.rtlsim_notes.specs.Notes.{note_view};
ghost use Rattle.vhdl_slips.specs.Words.{read_of};
ghost use Rattle.rtlsim_findings_text.specs.Explained as spec;
ghost use Rattle.rtlsim_findings_text.specs.Marks.{IsMarked, files_at, view};

use crate::places::{MarkedFile, Site, push_place};
use crate::shown::push_shown;
use rtl_check::CheckFault;
use rtl_net::NoMemory;
use rtlsim_findings::{Finding, also, culprits, message, words_in};
use rtlsim_listing::{push_decimal, push_title, report_of};
use rtlsim_notes::{Note, notes};
use vhdl_slips::Lexed;

/// How many other instances are named behind the first.
const MOST_OTHERS: usize = 14;

/// The paragraph of a finding, with notes in the words of the source.
#[tactic(auto, unfolding(crate::specs::Explained::paragraph))]
pub(crate) fn paragraph(
    site: &Site<'_>,
    source: Lexed<'_>,
    finding: &Finding<'_>,
) -> Result<Vec<u8>, NoMemory>
    requires marked { All IsMarked site.now.files.now }
    ensures { IfOk result (λ text. text.items
        ≡ spec.paragraph (files_at site.now) (read_of source.entry) site.now.net.now (finding_view finding.now)) }
{
    let mut text = Vec::new(site.alloc);
    push_told(site, finding, &mut text)?;
    let notes = notes(site.alloc, source, site.net, finding)?;
    push_notes(site.files, &notes, &mut text)?;
    push_also(site, &also(site.alloc, finding)?, &mut text)?;
    push_help(finding, &mut text)?;
    Ok(text)
}

/// Appends the place, what is found, and the line of the place.
#[tactic(auto, unfolding(crate::specs::Explained::told_text))]
fn push_told(site: &Site<'_>, finding: &Finding<'_>, text: &mut Vec<u8>) -> Result<(), NoMemory>
    requires marked { All IsMarked site.now.files.now }
    ensures { OnOk result (text.new.items
        ≡ text.old.items ++ spec.told_text (files_at site.now) site.now.net.now (finding_view finding.now)) }
{
    push_place(site.files, finding.cause.first, text)?;
    push_title(report_of(finding.first).rule, text)?;
    text.extend_from_slice(b": ")?;
    text.extend_from_slice(&message(site.alloc, site.net, finding)?)?;
    text.extend_from_slice(b"\n")?;
    push_shown(site.files, finding.cause.first, text)
}

/// Appends what is written of these notes.
fn push_notes(files: &[MarkedFile<'_>], notes: &[Note], text: &mut Vec<u8>) -> Result<(), NoMemory>
    requires marked { All IsMarked files.now }
    ensures { OnOk result (text.new.items
        ≡ text.old.items ++ flat_map (spec.noted (map view files.now)) (map note_view notes.now)) }
{
    for note in notes {
        push_noted(files, note, text)?;
    }
    Ok(())
}

/// Appends the place of a note, the note, and the line of the place.
#[tactic(auto, unfolding(crate::specs::Explained::noted))]
fn push_noted(files: &[MarkedFile<'_>], note: &Note, text: &mut Vec<u8>) -> Result<(), NoMemory>
    requires marked { All IsMarked files.now }
    ensures { OnOk result (text.new.items ≡ text.old.items ++ spec.noted (map view files.now) (note_view note.now)) }
{
    push_place(files, Some(note.at), text)?;
    text.extend_from_slice(b"note: ")?;
    text.extend_from_slice(&note.text)?;
    text.extend_from_slice(b"\n")?;
    push_shown(files, Some(note.at), text)
}

/// Appends the line of the processes of the other instances that have it.
#[tactic(auto, unfolding(crate::specs::Explained::also_text))]
fn push_also(site: &Site<'_>, faults: &[&CheckFault], text: &mut Vec<u8>) -> Result<(), NoMemory>
    ensures { OnOk result (text.new.items
        ≡ text.old.items ++ spec.also_text site.now.net.now (map (λ f. fault_view f.now) faults.now)) }
{
    let [fault, others @ ..] = faults else {
        return Ok(());
    };
    text.extend_from_slice(b"also in ")?;
    text.extend_from_slice(&culprits(site.alloc, site.net, fault)?)?;
    push_others(site, others, text)?;
    text.extend_from_slice(b"\n")?;
    Ok(())
}

/// Appends the processes of the instances behind the first, or of so many and how many more there
/// are.
fn push_others(site: &Site<'_>, faults: &[&CheckFault], text: &mut Vec<u8>) -> Result<(), NoMemory>
    ensures { OnOk result (text.new.items
        ≡ text.old.items ++ spec.others_text site.now.net.now 14 (map (λ f. fault_view f.now) faults.now)) }
{
    let mut room = MOST_OTHERS;
    let mut left = faults;
    while let [fault, rest @ ..] = left {
        if room == 0 {
            return push_more(left.len(), text);
        }
        text.extend_from_slice(b", ")?;
        text.extend_from_slice(&culprits(site.alloc, site.net, fault)?)?;
        room -= 1;
        left = rest;
    }
    Ok(())
}

/// Appends how many more instances there are.
fn push_more(count: usize, text: &mut Vec<u8>) -> Result<(), NoMemory>
    ensures { OnOk result (text.new.items ≡ text.old.items ++ (codes " and " ++ decimal count ++ codes " more")) }
{
    text.extend_from_slice(b" and ")?;
    push_decimal(count, text)?;
    text.extend_from_slice(b" more")?;
    Ok(())
}

/// Appends what a designer does about a finding.
fn push_help(finding: &Finding<'_>, text: &mut Vec<u8>) -> Result<(), NoMemory>
    ensures { OnOk result (text.new.items ≡ text.old.items ++ help_line (spec.help_for (finding_view finding.now))) }
{
    text.extend_from_slice(b"help: ")?;
    text.extend_from_slice(words_in(finding).help.as_bytes())?;
    text.extend_from_slice(b"\n")?;
    Ok(())
}
