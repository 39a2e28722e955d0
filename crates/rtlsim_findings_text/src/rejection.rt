//! Explanations of the checker's faults, for a designer.

ghost use Rattle.std.specs.Prelude.{◌≡◌, All, flat_map, map, take, drop};
ghost use Rattle.vhdl_source_files.specs.Files.{file_view};
ghost use Rattle.rtlsim_findings.specs.Findings.{finding_view};
ghost use Rattle.rtlsim_listing.specs.Printing.{Prints};
ghost use Rattle.vhdl_slips.specs.Words.{read_of};
ghost use Rattle.rtlsim_findings_text.specs.Explained as spec;
ghost use Rattle.rtlsim_findings_text.specs.Marks.{IsMarked, files_at};

use crate::paragraph::paragraph;
use crate::places::{Site, mark_files};
use byte_streams::{Sink, push_text};
use fault_rules::Subject;
use rtl_check::CheckFault;
use rtl_net::{Net, NoMemory};
use rtlsim_findings::{Finding, findings};
use rtlsim_listing::report_of;
use std::alloc::Global;
use vhdl_slips::Lexed;
use vhdl_source_files::SourceFile;

/// So many findings are told with the places that tokens show.
const MOST_PLACED: usize = 20;

/// The findings that are told with these places.
pub(crate) fn first_placed<'s, 'f>(found: &'s [Finding<'f>]) -> &'s [Finding<'f>]
    ensures { result.now ≡ take 20 found.now }
{
    if MOST_PLACED < found.len() {
        &found[..MOST_PLACED]
    } else {
        found
    }
}

/// The findings behind these.
pub(crate) fn not_placed<'s, 'f>(found: &'s [Finding<'f>]) -> &'s [Finding<'f>]
    ensures { result.now ≡ drop 20 found.now }
{
    if MOST_PLACED < found.len() {
        &found[MOST_PLACED..]
    } else {
        &[]
    }
}

/// A source without its tokens.
pub(crate) fn without_tokens(source: Lexed<'_>) -> Lexed<'_>
    ensures { read_of result ≡ spec.without_tokens (read_of source.entry) }
{
    Lexed {
        text: source.text,
        tokens: &[],
    }
}

/// Explains what the checker found: a paragraph for each finding, at its place in these files,
/// whose texts joined are the netlist's source, with notes where its tokens show a place, and below
/// them what simulates the netlist all the same. It takes memory for the findings, and for one
/// paragraph at a time; where that is refused, what went out is a beginning of the text.
pub fn explain_rejection<S: Sink>(
    alloc: Global,
    files: &[SourceFile<'_>],
    source: Lexed<'_>,
    net: &Net,
    faults: &[CheckFault],
    sink: &mut S,
) -> Result<(), NoMemory>
    ensures { Prints result (S.state sink.old) (S.state sink.new)
        (spec.rejection_explained (map file_view files.now) (read_of source.entry) net.now faults.now) }
{
    let found = findings(alloc, net, faults)?;
    let marked = mark_files(alloc, files)?;
    let files = marked.as_slice();
    let site = Site { alloc, files, net };
    push_found(&site, source, &found, sink)?;
    push_text(sink, ending(faults));
    Ok(())
}

/// Writes the paragraphs of all findings: of the first with places, and of the others without.
fn push_found<S: Sink>(
    site: &Site<'_>,
    source: Lexed<'_>,
    found: &[Finding<'_>],
    sink: &mut S,
) -> Result<(), NoMemory>
    requires marked { All IsMarked site.now.files.now }
    ensures { Prints result (S.state sink.old) (S.state sink.new)
        (spec.paragraphs (files_at site.now) (read_of source.entry) site.now.net.now (map finding_view found.now)) }
{
    push_paragraphs(site, source, first_placed(found), sink)?;
    push_paragraphs(site, without_tokens(source), not_placed(found), sink)
}

/// Writes the paragraphs of these findings.
fn push_paragraphs<S: Sink>(
    site: &Site<'_>,
    source: Lexed<'_>,
    found: &[Finding<'_>],
    sink: &mut S,
) -> Result<(), NoMemory>
    requires marked { All IsMarked site.now.files.now }
    ensures { Prints result (S.state sink.old) (S.state sink.new)
        (flat_map (spec.paragraph (files_at site.now) (read_of source.entry) site.now.net.now)
        (map finding_view found.now)) }
{
    for finding in found {
        let text = paragraph(site, source, finding)?;
        push_text(sink, &text);
    }
    Ok(())
}

/// What simulates it all the same, where no variable keeps its value.
fn ending(faults: &[CheckFault]) -> &'static [u8]
    ensures { result.now ≡ spec.ending faults.now }
{
    if any_stored(faults) {
        return b"";
    }
    b"help: run --event simulates it, without the promises of run\n"
}

/// Whether one of these faults is of a variable that keeps its value.
pub(crate) fn any_stored(faults: &[CheckFault]) -> bool
    ensures { result ≡ spec.any_stored faults.now }
{
    faults
        .iter()
        .any(|fault| is_element(report_of(fault).subject))
}

/// Whether something is told of an element of a variable.
pub(crate) fn is_element(subject: Subject) -> bool
    ensures { result ≡ spec.is_element subject }
{
    matches!(subject, Subject::Element { .. })
}
