//! Remarks on a netlist and on its stimulus, written.

ghost use Rattle.std.specs.Prelude.{◌≡◌, ◌++◌, All, map, flat_map, IfOk, OnOk};
ghost use Rattle.vhdl_source_files.specs.Files.{file_view};
ghost use Rattle.rtlsim_findings.specs.Remarked.{remark_view};
ghost use Rattle.rtlsim_listing.specs.Printing.{Prints};
ghost use Rattle.rtlsim_findings_text.specs.Marks.{IsMarked, files_at};
ghost use Rattle.rtlsim_findings_text.specs.RemarkText as spec;

use crate::places::{Site, mark_files, push_place};
use byte_streams::{Sink, push_text};
use rtl_net::{Net, NoMemory};
use rtl_remarks::{Remark, remarks};
use rtl_undriven_inputs::stimulus_remarks;
use rtlsim_findings::{RemarkFinding, at_process, remark_findings, remark_message, remark_process};
use std::alloc::Global;
use vhdl_source_files::SourceFile;

/// Writes the remarks on a netlist, whatever the checker says of it: a line for each, or one for
/// elements of a vector that stand side by side and of which the same is told, at the place of its
/// process in these files, whose texts joined are the netlist's source; nothing where there are
/// none. It takes memory for the remarks and the text; where that is refused, what went out is a
/// beginning of the text.
pub fn show_remarks<S: Sink>(
    alloc: Global,
    files: &[SourceFile<'_>],
    net: &Net,
    out: &mut S,
) -> Result<(), NoMemory>
    ensures { Prints result (S.state out.old) (S.state out.new)
        (spec.remarks_text (map file_view files.now) net.now) }
{
    let remarks = remarks(alloc, net)?;
    let text = text_of(alloc, files, net, &remarks)?;
    push_text(out, &text);
    Ok(())
}

/// The lines of the remarks on a stimulus of a netlist, by its text: none where there are none. It
/// takes memory for the remarks and the lines.
pub fn stimulus_remarks_text(
    alloc: Global,
    files: &[SourceFile<'_>],
    net: &Net,
    stimulus: &[u8],
) -> Result<Vec<u8>, NoMemory>
    ensures { IfOk result (λ text. text.items
        ≡ spec.stimulus_remarks_text (map file_view files.now) net.now stimulus.now) }
{
    let remarks = stimulus_remarks(alloc, net, stimulus)?;
    text_of(alloc, files, net, &remarks)
}

/// The lines of these remarks.
fn text_of(
    alloc: Global,
    files: &[SourceFile<'_>],
    net: &Net,
    remarks: &[Remark],
) -> Result<Vec<u8>, NoMemory>
    ensures { IfOk result (λ text. text.items ≡ spec.lines (map file_view files.now) net.now remarks.now) }
{
    let found = remark_findings(alloc, net, remarks)?;
    let marked = mark_files(alloc, files)?;
    let mut text = Vec::new(alloc);
    let files = marked.as_slice();
    push_lines(&Site { alloc, files, net }, &found, &mut text)?;
    Ok(text)
}

/// Appends the lines of these remarks.
fn push_lines(site: &Site<'_>, found: &[RemarkFinding], text: &mut Vec<u8>) -> Result<(), NoMemory>
    requires marked { All IsMarked site.now.files.now }
    ensures { OnOk result (text.new.items
        ≡ text.old.items ++ flat_map (spec.line (files_at site.now) site.now.net.now) (map remark_view found.now)) }
{
    for remark in found {
        push_line(site, remark, text)?;
    }
    Ok(())
}

/// Appends the line of a remark.
fn push_line(site: &Site<'_>, found: &RemarkFinding, text: &mut Vec<u8>) -> Result<(), NoMemory>
    requires marked { All IsMarked site.now.files.now }
    ensures { OnOk result (text.new.items
        ≡ text.old.items ++ spec.line (files_at site.now) site.now.net.now (remark_view found.now)) }
{
    let at = at_process(site.net, remark_process(found.remark));
    push_place(site.files, at, text)?;
    text.extend_from_slice(b"remark: ")?;
    text.extend_from_slice(&remark_message(site.alloc, site.net, found)?)?;
    text.extend_from_slice(b"\n")?;
    Ok(())
}
