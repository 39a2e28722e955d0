//! The objects of findings and remarks.

ghost use Rattle.std.specs.Prelude.{◌≡◌, ◌++◌, All, map, IfOk, OnOk};
ghost use Rattle.fault_rules.specs.Rules.{words_of};
ghost use Rattle.vhdl_source_files.specs.Files.{spot_view};
ghost use Rattle.rtlsim_findings.specs.Findings.{finding_view};
ghost use Rattle.rtlsim_findings.specs.Remarked.{remark_view};
ghost use Rattle.rtlsim_notes.specs.Notes.{note_view};
ghost use Rattle.vhdl_slips.specs.Words.{read_of};
ghost use Rattle.rtlsim_findings_text.specs.Json as spec;
ghost use Rattle.rtlsim_findings_text.specs.Marks.{IsMarked, Stands, files_at};
ghost use Rattle.rtlsim_findings_text.specs.Values.{string_text};

use crate::places::{PlacedByte, Site, place_at};
use crate::rejection::is_element;
use crate::values::{push_array, push_process, push_processes, push_string};
use fault_rules::{Rule, Subject};
use rtl_net::NoMemory;
use rtlsim_circles::nets_round;
use rtlsim_findings::{
    Finding, RemarkFinding, all_ranges_of, at_process, message, processes, remark_message,
    remark_process, remark_report, words_in,
};
use rtlsim_listing::{circle_of, push_decimal, report_of};
use rtlsim_notes::{Note, notes};
use rtlsim_refusals::Position;
use std::alloc::Global;
use vhdl_slips::Lexed;

/// The object of a finding.
#[tactic(auto, unfolding(crate::specs::Json::finding_text))]
pub(crate) fn finding_text(
    site: &Site<'_>,
    source: Lexed<'_>,
    finding: &Finding<'_>,
) -> Result<Vec<u8>, NoMemory>
    requires marked { All IsMarked site.now.files.now }
    ensures { IfOk result (λ text. text.items
        ≡ spec.finding_text (files_at site.now) (read_of source.entry) site.now.net.now (finding_view finding.now)) }
{
    let mut text = Vec::new(site.alloc);
    push_title(report_of(finding.first).rule, &mut text)?;
    push_said(site, finding, &mut text)?;
    push_named(site, finding, &mut text)?;
    let places = places_of(site, source, finding)?;
    push_places(&places, &mut text)?;
    Ok(text)
}

/// Appends the layer, the number and the name of a rule.
#[tactic(auto, unfolding(crate::specs::Json::title_text))]
pub(crate) fn push_title(rule: Rule, text: &mut Vec<u8>) -> Result<(), NoMemory>
    ensures { OnOk result (text.new.items ≡ text.old.items ++ spec.title_text (words_of rule)) }
{
    let words = rule.words();
    push_member(b"{\"layer\":", words.layer.as_bytes(), text)?;
    text.extend_from_slice(b",\"number\":")?;
    push_decimal(usize::from(words.number), text)?;
    push_member(b",\"name\":", words.name.as_bytes(), text)
}

/// Appends the sentence and the help.
#[tactic(auto, unfolding(crate::specs::Json::said_text))]
fn push_said(site: &Site<'_>, finding: &Finding<'_>, text: &mut Vec<u8>) -> Result<(), NoMemory>
    ensures { OnOk result (text.new.items
        ≡ text.old.items ++ spec.said_text site.now.net.now (finding_view finding.now)) }
{
    push_member(
        b",\"message\":",
        &message(site.alloc, site.net, finding)?,
        text,
    )?;
    let words = words_in(finding);
    push_member(b",\"help\":", words.help.as_bytes(), text)
}

/// Appends a member of an object: its name, as it stands there, and a string of these bytes.
pub(crate) fn push_member(name: &[u8], bytes: &[u8], text: &mut Vec<u8>) -> Result<(), NoMemory>
    ensures { OnOk result (text.new.items ≡ text.old.items ++ (name.now ++ string_text bytes.now)) }
{
    text.extend_from_slice(name)?;
    push_string(bytes, text)
}

/// Appends the processes, nets and variables.
#[tactic(auto, unfolding(crate::specs::Json::named_text))]
fn push_named(site: &Site<'_>, finding: &Finding<'_>, text: &mut Vec<u8>) -> Result<(), NoMemory>
    ensures { OnOk result (text.new.items
        ≡ text.old.items ++ spec.named_text site.now.net.now (finding_view finding.now)) }
{
    text.extend_from_slice(b",\"processes\":")?;
    push_processes(site, &processes(site.alloc, finding)?, text)?;
    text.extend_from_slice(b",\"nets\":")?;
    push_array(&nets_in(site, finding)?, true, text)?;
    text.extend_from_slice(b",\"variables\":")?;
    push_array(&variables_in(site, finding)?, true, text)
}

/// The nets that all faults of a finding are told of, or those of its circle.
fn nets_in(site: &Site<'_>, finding: &Finding<'_>) -> Result<Vec<Vec<u8>>, NoMemory>
    ensures { IfOk result (λ texts. map (λ t. t.items) texts.items
        ≡ spec.nets_in site.now.net.now (finding_view finding.now)) }
{
    if is_net(report_of(finding.first).subject) {
        return all_ranges_of(site.alloc, site.net, finding);
    }
    nets_round(site.alloc, site.net, circle_of(finding.first))
}

/// The elements of variables that they are told of.
fn variables_in(site: &Site<'_>, finding: &Finding<'_>) -> Result<Vec<Vec<u8>>, NoMemory>
    ensures { IfOk result (λ texts. map (λ t. t.items) texts.items
        ≡ spec.variables_in site.now.net.now (finding_view finding.now)) }
{
    if is_element(report_of(finding.first).subject) {
        return all_ranges_of(site.alloc, site.net, finding);
    }
    Ok(Vec::new(site.alloc))
}

/// Whether something is told of nets.
fn is_net(subject: Subject) -> bool
    ensures { result ≡ spec.is_net subject }
{
    matches!(
        subject,
        Subject::Sources { .. } | Subject::ProcessNet { .. }
    )
}

/// The places of a finding: that of its first process, and those of its notes.
fn places_of(
    site: &Site<'_>,
    source: Lexed<'_>,
    finding: &Finding<'_>,
) -> Result<Vec<Vec<u8>>, NoMemory>
    requires marked { All IsMarked site.now.files.now }
    ensures { IfOk result (λ texts. map (λ t. t.items) texts.items
        ≡ spec.places_of (files_at site.now) (read_of source.entry) site.now.net.now (finding_view finding.now)) }
{
    let mut texts = Vec::new(site.alloc);
    push_placed(site, finding.cause.first, b"null", &mut texts)?;
    push_notes(
        site,
        &notes(site.alloc, source, site.net, finding)?,
        &mut texts,
    )?;
    Ok(texts)
}

/// Appends the objects of the places of these notes.
fn push_notes(site: &Site<'_>, notes: &[Note], texts: &mut Vec<Vec<u8>>) -> Result<(), NoMemory>
    requires marked { All IsMarked site.now.files.now }
    ensures { OnOk result (map (λ t. t.items) texts.new.items
        ≡ map (λ t. t.items) texts.old.items
        ++ map (spec.noted_text (files_at site.now)) (map note_view notes.now)) }
{
    for note in notes {
        texts.push(noted_text(site, note)?)?;
    }
    Ok(())
}

/// The object of the place of a note.
fn noted_text(site: &Site<'_>, note: &Note) -> Result<Vec<u8>, NoMemory>
    requires marked { All IsMarked site.now.files.now }
    ensures { IfOk result (λ text. text.items ≡ spec.noted_text (files_at site.now) (note_view note.now)) }
{
    let mut said = Vec::new(site.alloc);
    push_string(&note.text, &mut said)?;
    spot_text(site.alloc, place_at(site.files, note.at), &said)
}

/// Appends the object of a place with this note, if there is a place.
fn push_placed(
    site: &Site<'_>,
    at: Option<usize>,
    note: &[u8],
    texts: &mut Vec<Vec<u8>>,
) -> Result<(), NoMemory>
    requires marked { All IsMarked site.now.files.now }
    ensures { OnOk result (map (λ t. t.items) texts.new.items
        ≡ map (λ t. t.items) texts.old.items ++ spec.placed (files_at site.now) at note.now) }
{
    let Some(at) = at else {
        return Ok(());
    };
    texts.push(spot_text(site.alloc, place_at(site.files, at), note)?)?;
    Ok(())
}

/// The object of a place with this note.
#[tactic(auto, unfolding(crate::specs::Json::spot_text))]
pub(crate) fn spot_text(
    alloc: Global,
    place: PlacedByte<'_>,
    note: &[u8],
) -> Result<Vec<u8>, NoMemory>
    requires stands { Stands place }
    ensures { IfOk result (λ text. text.items ≡ spec.spot_text (spot_view place.entry.byte) note.now) }
{
    let mut text = Vec::from_slice(alloc, b"{\"file\":")?;
    push_string(place.byte.file.name, &mut text)?;
    push_position(place.position, &mut text)?;
    text.extend_from_slice(b",\"note\":")?;
    text.extend_from_slice(note)?;
    text.extend_from_slice(b"}")?;
    Ok(text)
}

/// Appends a line and a column.
fn push_position(position: Position, text: &mut Vec<u8>) -> Result<(), NoMemory>
    ensures { OnOk result (text.new.items ≡ text.old.items ++ spec.position_text position) }
{
    text.extend_from_slice(b",\"line\":")?;
    push_decimal(position.line, text)?;
    text.extend_from_slice(b",\"column\":")?;
    push_decimal(position.column, text)
}

/// Appends the array of places, with which an object ends.
#[tactic(auto, unfolding(crate::specs::Json::places_text))]
pub(crate) fn push_places(places: &[Vec<u8>], text: &mut Vec<u8>) -> Result<(), NoMemory>
    ensures { OnOk result (text.new.items ≡ text.old.items ++ spec.places_text (map (λ t. t.items) places.now)) }
{
    text.extend_from_slice(b",\"places\":")?;
    push_array(places, false, text)?;
    text.extend_from_slice(b"}")?;
    Ok(())
}

/// The object of remarks that are told as one.
#[tactic(auto, unfolding(crate::specs::Json::remark_text))]
pub(crate) fn remark_text(site: &Site<'_>, found: &RemarkFinding) -> Result<Vec<u8>, NoMemory>
    requires marked { All IsMarked site.now.files.now }
    ensures { IfOk result (λ text. text.items
        ≡ spec.remark_text (files_at site.now) site.now.net.now (remark_view found.now)) }
{
    let process = remark_process(found.remark);
    let mut places = Vec::new(site.alloc);
    push_placed(site, at_process(site.net, process), b"null", &mut places)?;
    let words = remark_report(found.remark).rule.words();
    let mut text = Vec::new(site.alloc);
    push_member(b"{\"name\":", words.name.as_bytes(), &mut text)?;
    push_member(
        b",\"message\":",
        &remark_message(site.alloc, site.net, found)?,
        &mut text,
    )?;
    text.extend_from_slice(b",\"process\":")?;
    push_process(site, process, &mut text)?;
    text.extend_from_slice(b",\"nets\":[")?;
    push_string(&found.nets, &mut text)?;
    text.extend_from_slice(b"]")?;
    push_places(&places, &mut text)?;
    Ok(text)
}
