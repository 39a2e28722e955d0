//! The object of a judgement.

ghost use Rattle.std.specs.Prelude.{◌≡◌, All, flat_map, map, IfOk};
ghost use Rattle.vhdl_source_files.specs.Files.{file_view};
ghost use Rattle.rtlsim_findings.specs.Findings.{finding_view};
ghost use Rattle.rtlsim_findings.specs.Remarked as remarked;
ghost use Rattle.rtlsim_listing.specs.Printing.{Prints};
ghost use Rattle.vhdl_slips.specs.Words.{read_of};
ghost use Rattle.rtlsim_findings_text.specs.Json as spec;
ghost use Rattle.rtlsim_findings_text.specs.Marks.{IsMarked, files_at};
ghost use Rattle.rtlsim_findings_text.specs.Values.{items_text, next_text};

use crate::object::{finding_text, remark_text};
use crate::places::{Site, mark_files};
use crate::rejection::{any_stored, first_placed, not_placed, without_tokens};
use crate::values::push_array;
use byte_streams::{Sink, push_text};
use rtl_check::Judgement;
use rtl_net::{Net, NoMemory};
use rtl_remarks::remarks;
use rtlsim_findings::{Finding, RemarkFinding, findings, remark_findings};
use rtlsim_listing::{greatest_level, push_decimal};
use std::alloc::Global;
use vhdl_slips::Lexed;
use vhdl_source_files::SourceFile;

/// Writes the checker's judgement of a netlist and the remarks on it as an object of JSON on one
/// line: `yes` with the greatest level and the bound, or `no` with an object for each finding, at
/// its place in these files, whose texts joined are the netlist's source, with places that its
/// tokens show. It takes memory for the findings and the remarks, and for the text of one at a
/// time; where that is refused, what went out is a beginning of the text.
pub fn show_check_json<S: Sink>(
    alloc: Global,
    files: &[SourceFile<'_>],
    source: Lexed<'_>,
    net: &Net,
    judgement: &Judgement,
    out: &mut S,
) -> Result<(), NoMemory>
    ensures { Prints result (S.state out.old) (S.state out.new)
        (spec.json_text (map file_view files.now) (read_of source.entry) net.now judgement.now) }
{
    let found = found(alloc, net, judgement)?;
    let marked = mark_files(alloc, files)?;
    let files = marked.as_slice();
    let site = Site { alloc, files, net };
    let begin = verdict_text(alloc, judgement)?;
    let end = end_text(&site)?;
    push_text(out, &begin);
    push_text(out, b",\"faults\":[");
    push_found(&site, source, &found, out)?;
    push_text(out, b"]");
    push_text(out, &end);
    Ok(())
}

/// The findings of a judgement.
fn found<'a>(
    alloc: Global,
    net: &Net,
    judgement: &'a Judgement,
) -> Result<Vec<Finding<'a>>, NoMemory>
    ensures { IfOk result (λ found. map finding_view found.items ≡ spec.found net.now judgement.now) }
{
    match judgement {
        Judgement::Faulty(faults) => findings(alloc, net, faults),
        _ => Ok(Vec::new(alloc)),
    }
}

/// How the object begins.
fn verdict_text(alloc: Global, judgement: &Judgement) -> Result<Vec<u8>, NoMemory>
    ensures { IfOk result (λ text. text.items ≡ spec.verdict_text judgement.now) }
{
    match judgement {
        Judgement::ByProcesses(report) => {
            yes_text(alloc, false, greatest_level(&report.levels), report.bound)
        }
        Judgement::ByNets(report) => {
            yes_text(alloc, true, greatest_level(&report.levels), report.bound)
        }
        Judgement::Faulty(faults) => no_text(alloc, any_stored(faults)),
    }
}

/// How the object of a yes begins.
fn yes_text(alloc: Global, by_nets: bool, levels: u32, bound: u32) -> Result<Vec<u8>, NoMemory>
    ensures { IfOk result (λ text. text.items ≡ spec.yes_text by_nets levels bound) }
{
    let mut text = Vec::from_slice(alloc, b"{\"version\":2,\"verdict\":\"yes\",\"levels\":")?;
    push_decimal(levels as usize, &mut text)?;
    text.extend_from_slice(b",\"bound\":")?;
    push_decimal(bound as usize, &mut text)?;
    text.extend_from_slice(if by_nets { b",\"by\":\"nets\"" } else { b"" })?;
    text.extend_from_slice(b",\"simulates\":\"run\"")?;
    Ok(text)
}

/// How the object of a no begins, where a variable is stored or none is.
fn no_text(alloc: Global, stored: bool) -> Result<Vec<u8>, NoMemory>
    ensures { IfOk result (λ text. text.items ≡ spec.no_text stored) }
{
    let begin = b"{\"version\":2,\"verdict\":\"no\",\"levels\":null,\"bound\":null,\"simulates\":";
    let mut text = Vec::from_slice(alloc, begin)?;
    if stored {
        text.extend_from_slice(b"null")?;
    } else {
        text.extend_from_slice(b"\"run --event\"")?;
    }
    Ok(text)
}

/// Writes the objects of all findings: of the first with places, and of the others without.
fn push_found<W: Sink>(
    site: &Site<'_>,
    source: Lexed<'_>,
    found: &[Finding<'_>],
    out: &mut W,
) -> Result<(), NoMemory>
    requires marked { All IsMarked site.now.files.now }
    ensures { Prints result (W.state out.old) (W.state out.new)
        (spec.findings_text (files_at site.now) (read_of source.entry) site.now.net.now (map finding_view found.now)) }
{
    push_findings(site, source, first_placed(found), out)?;
    push_others(site, without_tokens(source), not_placed(found), out)
}

/// Writes the objects of findings, with a comma between two.
fn push_findings<W: Sink>(
    site: &Site<'_>,
    source: Lexed<'_>,
    found: &[Finding<'_>],
    out: &mut W,
) -> Result<(), NoMemory>
    requires marked { All IsMarked site.now.files.now }
    ensures { Prints result (W.state out.old) (W.state out.new)
        (items_text (spec.finding_text (files_at site.now) (read_of source.entry) site.now.net.now)
        (map finding_view found.now)) }
{
    let [first, others @ ..] = found else {
        return Ok(());
    };
    let text = finding_text(site, source, first)?;
    push_text(out, &text);
    push_others(site, source, others, out)
}

/// Writes the objects of findings, each behind a comma.
fn push_others<W: Sink>(
    site: &Site<'_>,
    source: Lexed<'_>,
    found: &[Finding<'_>],
    out: &mut W,
) -> Result<(), NoMemory>
    requires marked { All IsMarked site.now.files.now }
    ensures { Prints result (W.state out.old) (W.state out.new)
        (flat_map (next_text (spec.finding_text (files_at site.now) (read_of source.entry) site.now.net.now))
        (map finding_view found.now)) }
{
    for finding in found {
        let text = finding_text(site, source, finding)?;
        push_text(out, b",");
        push_text(out, &text);
    }
    Ok(())
}

/// How the object ends: the remarks.
fn end_text(site: &Site<'_>) -> Result<Vec<u8>, NoMemory>
    requires marked { All IsMarked site.now.files.now }
    ensures { IfOk result (λ text. text.items ≡ spec.end_text (files_at site.now) site.now.net.now) }
{
    let remarks = remarks(site.alloc, site.net)?;
    let found = remark_findings(site.alloc, site.net, &remarks)?;
    let objects = objects(site, &found)?;
    let mut text = Vec::from_slice(site.alloc, b",\"remarks\":")?;
    push_array(&objects, false, &mut text)?;
    text.extend_from_slice(b"}\n")?;
    Ok(text)
}

/// The objects of remarks.
fn objects(site: &Site<'_>, found: &[RemarkFinding]) -> Result<Vec<Vec<u8>>, NoMemory>
    requires marked { All IsMarked site.now.files.now }
    ensures { IfOk result (λ texts. map (λ t. t.items) texts.items
        ≡ map (spec.remark_text (files_at site.now) site.now.net.now) (map remarked.remark_view found.now)) }
{
    let mut texts = Vec::new(site.alloc);
    for remark in found {
        texts.push(remark_text(site, remark)?)?;
    }
    Ok(texts)
}
