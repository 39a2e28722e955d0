//! What is told of a fault of a source, as data.

ghost use Rattle.std.specs.Prelude.{◌≡◌, ℕ, false, List, [], IfOk, map, option_map};
ghost use Rattle.vhdl_parser_rules.specs.Expected.{expected_of};
ghost use Rattle.byte_streams.specs.Written.{Goes};
ghost use Rattle.rtlsim_refusals.specs.Explained as spec;
ghost use Rattle.vhdl_slips.specs.Words.{read_of};
ghost use Rattle.vhdl_source_files.specs.Files.{file_view, spot_view};

use crate::beside::{Notes, notes_at};
use crate::explaining::{
    Site, help_of, push_below, push_head, push_refusal_sentence, push_rest, push_sentence,
    refusal_help, site_at,
};
use byte_streams::{Out, Sink, push_text};
use fault_rules::{Place, Report, Rule};
use std::alloc::{AllocError, Global};
use vhdl_lexer::Language;
use vhdl_parser_rules::Expected;
use vhdl_slips::Lexed;
use vhdl_source_files::{FilePlace, SourceFile, place_in};

/// What is told of a fault of a source.
#[derive(Drop)]
pub struct Told<'a> {
    pub rule: Rule,
    /// Where it stands in its own file.
    pub place: FilePlace<'a>,
    /// What is wrong.
    pub sentence: Vec<u8>,
    /// Other places that have to be seen.
    pub notes: Notes<'a>,
    /// What a designer does about it.
    pub help: &'static [u8],
    /// A line more that helps, or nothing.
    pub below: Vec<u8>,
}

/// What is told of why a source of these files has no tokens; nothing of a report without a byte.
/// It takes the memory of its texts.
///
/// # Errors
///
/// Where that is refused.
pub fn told_refusal<'a>(
    alloc: Global,
    files: &[SourceFile<'a>],
    report: Report,
) -> Result<Option<Told<'a>>, AllocError>
    ensures { IfOk result (λ told. option_map spec.told_view told
        ≡ spec.told_of_refusal (map file_view files.now) report) }
{
    match report.place {
        Place::Byte(at) => Ok(Some(refusal_told(alloc, place_in(files, at), report.rule)?)),
        _ => Ok(None),
    }
}

/// What is told of which rule a source of these files breaks, which is read in a language, by its
/// text and tokens, and by what was expected where the parser refuses one; nothing of a report
/// without a byte. It takes the memory of its texts.
///
/// # Errors
///
/// Where that is refused.
pub fn told_source<'a>(
    alloc: Global,
    language: Language,
    files: &[SourceFile<'a>],
    source: Lexed<'_>,
    expected: Expected,
    report: Report,
) -> Result<Option<Told<'a>>, AllocError>
    ensures { IfOk result (λ told. option_map spec.told_view told
        ≡ spec.told_of_source language (map file_view files.now) (read_of source.entry) (expected_of expected)
        report) }
{
    match report.place {
        Place::Byte(at) => {
            let site = site_at(language, files, source, expected, at);
            Ok(Some(seen_told(alloc, files, site, source, report)?))
        }
        _ => Ok(None),
    }
}

/// What is told of a byte at which a source has no tokens.
fn refusal_told<'a>(alloc: Global, place: FilePlace<'a>, rule: Rule) -> Result<Told<'a>, AllocError>
    ensures { IfOk result (λ told. spec.told_view told ≡ spec.refusal_told (spot_view place.entry) rule) }
{
    let mut sentence = Out::new(Vec::new(alloc));
    push_refusal_sentence(place, rule, &mut sentence);
    Ok(Told {
        rule,
        place,
        sentence: taken(sentence)?,
        notes: Notes::none(),
        help: refusal_help(place, rule),
        below: Vec::new(alloc),
    })
}

/// What is told of a byte of a source that has tokens.
fn seen_told<'a>(
    alloc: Global,
    files: &[SourceFile<'a>],
    site: Site<'a, '_>,
    source: Lexed<'_>,
    report: Report,
) -> Result<Told<'a>, AllocError>
    ensures { IfOk result (λ told. spec.told_view told
        ≡ spec.seen_told (map file_view files.now) (spec.site_of site.entry) (read_of source.entry) report) }
{
    let mut sentence = Out::new(Vec::new(alloc));
    push_sentence(site, source, report, &mut sentence);
    let mut below = Out::new(Vec::new(alloc));
    push_below(site, source, report.rule, &mut below);
    Ok(Told {
        rule: report.rule,
        place: site.place,
        sentence: taken(sentence)?,
        notes: notes_at(files, site, source, report.rule),
        help: help_of(site, source, report),
        below: taken(below)?,
    })
}

/// What went out to a sink that was empty.
fn taken(out: Out<Vec<u8>>) -> Result<Vec<u8>, AllocError>
    ensures { IfOk result (λ bytes. (text : List ℕ)
        → Goes (record { taken = Some []; failed = false }) (⟦<Out<Vec<u8>> as Sink>⟧.state out) text
        → bytes.items ≡ text) }
{
    if out.failed() {
        return Err(AllocError);
    }
    Ok(out.into_inner())
}

/// Writes what is told as a paragraph.
pub fn push_paragraph<S: Sink>(told: &Told<'_>, sink: &mut S)
    ensures { Goes (S.state sink.old) (S.state sink.new) (spec.paragraph (spec.told_view told.now)) }
{
    push_head(told.place, told.rule, sink);
    push_text(sink, &told.sentence);
    push_rest(told.place, told.notes, told.help, sink);
    push_text(sink, &told.below);
}
